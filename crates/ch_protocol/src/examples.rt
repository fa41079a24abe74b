ghost use Rattle.ch_protocol.specs.Examples.{Frames};
ghost use Rattle.ch_protocol.specs.SessionExamples.{Subscribes, SayExamples, SignsIn, Authorized, Outcomes, Settled};
ghost use Rattle.ch_protocol.specs.TargetExamples.{TargetExamples};

/// Frames of each kind have the texts that the definitions compute.
pub fn examples_hold()
    ensures { Frames }
{}

/// Targets open a connection, or are refused, as the definitions compute.
pub fn target_examples_hold()
    ensures { TargetExamples }
{}

/// What a session does with messages, and what answers mean to it, is what the definitions compute.
pub fn session_examples_hold()
    ensures subscribes { Subscribes }
    ensures says { SayExamples }
    ensures signs_in { SignsIn }
    ensures authorized { Authorized }
    ensures outcomes { Outcomes }
    ensures settled { Settled }
{}

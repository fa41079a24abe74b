ghost use Rattle.ch_transcript.specs.Examples.{Excepted, Lines, OnePublish};
ghost use Rattle.ch_transcript.specs.RoundExamples.{Killed, Ticks, Others};

/// Lines say and write what the definitions compute.
pub fn examples_hold()
    ensures lines { Lines }
    ensures one_publish { OnePublish }
    ensures excepted { Excepted }
{}

/// How a line ends, and what silence makes of a connection, is what the definitions compute.
pub fn round_examples_hold()
    ensures killed { Killed }
    ensures ticks { Ticks }
    ensures others { Others }
{}

ghost use Rattle.ch_outcomes.specs.WorkedExample.{WorkedExample};

/// The worked example of the README, from its bytes to those that are written, is what the definitions compute.
pub fn worked_example_holds()
    ensures { WorkedExample }
{}

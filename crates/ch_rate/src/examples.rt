ghost use Rattle.ch_rate.specs.QuietExamples.{QuietExamples};
ghost use Rattle.ch_rate.specs.RateExamples.{RateExamples};

/// Which client events are allowed, and what is due of a silent connection, is what the definitions compute.
pub fn examples_hold()
    ensures rates { RateExamples }
    ensures quiet { QuietExamples }
{}

ghost use Rattle.ch_batch.specs.Examples.{EightTries};

/// A batch that always fails is tried at 0, 1000, 3000, 7000, 15000, 31000, 63000 and 127000.
pub fn tries_hold()
    ensures { EightTries }
{}

//! That each body has one meaning, so that what is read is exact.
ghost use Rattle.ch_triggers.specs.Laws.{OneReading};

/// A request's body is read in one way: as one list of events, or as none.
pub fn one_reading()
    ensures { OneReading }
{}

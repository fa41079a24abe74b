//! What holds of every transcript.
ghost use Rattle.ch_outcomes.specs.Laws.{OnePlay, OneOutcome};

/// A line does one thing where it stands: it writes one text and leaves one state behind, or it is refused.
pub fn one_play()
    ensures { OnePlay }
{}

/// A transcript has at most one outcome for a configuration: one status, and one text that is written.
pub fn one_outcome()
    ensures { OneOutcome }
{}

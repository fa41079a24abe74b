//! What holds of every soak.
ghost use Rattle.ch_soak.specs.Laws.{EachIsPlayable};

/// No line of a soak's transcript is refused: each outcome of it has the status 0.
pub fn each_is_playable()
    ensures { EachIsPlayable }
{}

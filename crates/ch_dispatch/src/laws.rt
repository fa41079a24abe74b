ghost use Rattle.ch_dispatch.specs.Laws.{AnsweredOnce};

/// A text is answered by one frame at most, which is no Kill.
pub fn answered_once()
    ensures { AnsweredOnce }
{}

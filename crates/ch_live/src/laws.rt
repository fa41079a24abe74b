ghost use Rattle.ch_live.specs.LossLaws.{LossesGoOn, LossesEnd, LossesAreOnce, LossesStand, NothingOutlives};
ghost use Rattle.ch_live.specs.Laws.{DirectFramesWait, FramesAreSent, MessagesAreHeard, TurnsMove, IdleTurns, MarksEnd};

/// The frame by which a socket is told what its message comes to waits after the turn.
pub fn direct_frames_wait()
    ensures { DirectFramesWait }
{}

/// A turn sends what waits and hears a message, unless the wire asks for patience, memory runs out or the
/// connection ends.
pub fn turns_go_on()
    ensures sent { FramesAreSent }
    ensures heard { MessagesAreHeard }
    ensures moved { TurnsMove }
{}

/// A turn is idle exactly where no frame was sent, no message was heard, no memory was wanted and the
/// connection didn't end.
pub fn idle_turns()
    ensures { IdleTurns }
{}

/// A connection that is marked ends with the code of its mark, a Kill's before that of a cut, and one whose
/// ping wasn't answered with `NO_PONG`.
pub fn marks_end()
    ensures { MarksEnd }
{}

/// Over any number of calls that make the losses of an ended session at one desk, each goes on where the one
/// before it stopped, whatever memory was refused: a loss is made once on each shard that the session uses,
/// in their order. Where the last call answers Ok all are made, and each stands after everything that the
/// socket joined, signed in to or watched there. So no subscription, sign-in or watch outlives its socket.
pub fn no_loss_is_left_out()
    ensures order { LossesGoOn }
    ensures all { LossesEnd }
    ensures once { LossesAreOnce }
    ensures stand { LossesStand }
    ensures ended { NothingOutlives }
{}

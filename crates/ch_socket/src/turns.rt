ghost use Rattle.std.specs.Prelude.{ℕ, List, IfOk};
ghost use Rattle.ch_config.specs.declared.config.Config.{Config};
ghost use Rattle.ch_desk.specs.AloneCalls.{IsAlone};
ghost use Rattle.ch_history.specs.Limits.{IsMoment};
ghost use Rattle.ch_socket.specs.Sockets.{IsReady, TakesTurn};
ghost use Rattle.ch_socket.specs.Turns.{LosesAt, MayTurn, StaysReady, TakesPart};
ghost use Rattle.ch_transcript.specs.Turns.{Turn};

use crate::losing::lose;
use ch_base::Memory;
use ch_desk::{Desk, calls_chain};
use ch_session::Session;

/// Gives the session back where the connection goes on; else makes its losses.
pub(crate) fn finish<R, D: Desk<R>>(
    rt: &R,
    desk: &mut D,
    session: Session,
    number: u64,
    at: u64,
    goes_on: bool,
) -> Result<Option<Session>, Memory>
    requires at { IsMoment at }
    requires ready { MayTurn number session (D.view desk.old) }
    ensures turn { (old new : List ℕ) (t : Turn) → TakesPart goes_on number at session (D.view desk.old) old new t → IsAlone (D.view desk.new)
        → IfOk result (λ left. TakesTurn number left (D.view desk.new) old new t) }
    ensures ready { (config : Config) → IsReady config number session → IfOk result (StaysReady config number) }
    ensures calls { LosesAt at session (D.view desk.old) (D.view desk.new) }
{
    calls_chain();
    if goes_on {
        Ok(Some(session))
    } else {
        lose(rt, desk, session, number, at)?;
        Ok(None)
    }
}

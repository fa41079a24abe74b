ghost use Rattle.std.specs.Prelude.{OnOk};
ghost use Rattle.ch_desk.specs.AloneCalls.{IsAlone, IsAt};
ghost use Rattle.ch_history.specs.Limits.{IsMoment};
ghost use Rattle.ch_protocol.specs.Shards.{Shards, loses};
ghost use Rattle.ch_socket.specs.Sockets.{IsOpen};
ghost use Rattle.ch_socket.specs.Turns.{LosesAt, MayTurn};
ghost use Rattle.ch_transcript.specs.Progress.{Socket};

use ch_base::Memory;
use ch_desk::{Desk, calls_alone};
use ch_session::Session;

/// Makes the losses of the socket with this number, whose connection ends at the moment `at`: one on each
/// shard that its session uses. Where there is no memory for one, those before it stay made.
pub fn lose<R, D: Desk<R>>(
    rt: &R,
    desk: &mut D,
    session: Session,
    number: u64,
    at: u64,
) -> Result<(), Memory>
    requires at { IsMoment at }
    requires ready { MayTurn number session (D.view desk.old) }
    ensures lost { (s : Socket) (shards : Shards) → IsOpen number session s → IsAt (D.view desk.old) shards → IsAlone (D.view desk.new)
        → OnOk result (IsAt (D.view desk.new) (loses number at s.asks shards)) }
    ensures calls { LosesAt at session (D.view desk.old) (D.view desk.new) }
{
    calls_alone();
    let mut session = session;
    ch_dispatch::lose(rt, desk, &mut session, at)
}

ghost use Rattle.std.specs.Prelude.{◌≡◌, IfOk, OnErr};
ghost use Rattle.ch_desk.specs.AloneCalls.{IsAlone, IsAt};
ghost use Rattle.ch_desk.specs.Views.{DeskView, IsDeskOf};
ghost use Rattle.ch_history.specs.Limits.{IsMoment};
ghost use Rattle.ch_protocol.specs.Shards.{Shards};
ghost use Rattle.ch_session.specs.Kept.{Kept};
ghost use Rattle.ch_socket.specs.Sockets.{IsReady, IsOpen, TakesTurn};
ghost use Rattle.ch_socket.specs.Turns.{LosesOnTick, StaysReady, TakesPart};
ghost use Rattle.ch_transcript.specs.Progress.{Socket};
ghost use Rattle.ch_transcript.specs.Turns.{ticks, ticks_as};

use crate::printing::{put_end, put_frame};
use crate::turns::finish;
use ch_base::{Frame, Memory, NO_PONG};
use ch_config::Config;
use ch_desk::{Desk, calls_chain};
use ch_rate::Due;
use ch_session::Session;
use std::alloc::Global;

/// Does what the socket with this number is due at the moment `at`: a ping, or the end of its connection.
/// The session is given back unless the connection ends.
///
/// Where there is no memory the output stays as it is, and the losses that were made stay made.
pub fn tick<R, D: Desk<R>>(
    alloc: Global,
    rt: &R,
    config: &Config,
    desk: &mut D,
    session: Session,
    number: u64,
    at: u64,
    out: &mut Vec<u8>,
) -> Result<Option<Session>, Memory>
    requires at { IsMoment at }
    requires ready { IsReady config.now number session }
    requires desk { IsDeskOf config.now (D.view desk.old) }
    ensures ticks { (s : Socket) (shards : Shards) → IsOpen number session s → IsAt (D.view desk.old) shards → IsAlone (D.view desk.new)
        → IfOk result (λ left. TakesTurn number left (D.view desk.new) out.old.items out.new.items (ticks number at s shards)) }
    ensures ready { IfOk result (StaysReady config.now number) }
    ensures desk { IsDeskOf config.now (D.view desk.new) }
    ensures calls { LosesOnTick at session (D.view desk.old) (D.view desk.new) }
    ensures output { OnErr result (out.new.items ≡ out.old.items) }
{
    calls_chain();
    let _ = config;
    let mut session = session;
    let due = session.tick(at);
    let mut lines = Vec::new(alloc);
    let goes_on = put_due(alloc, &mut lines, number, at, due)?;
    let left = finish(rt, desk, session, number, at, goes_on)?;
    out.extend_from_slice(lines.as_slice())?;
    Ok(left)
}

/// Adds what is due, and answers whether the connection goes on.
fn put_due(alloc: Global, out: &mut Vec<u8>, number: u64, at: u64, due: Due) -> Result<bool, Memory>
    ensures { (session : Kept) (desk : DeskView) (s : Socket) (shards : Shards) → IsOpen number session s → IsAt desk shards
        → IfOk result (λ goes_on. TakesPart goes_on number at session desk out.old.items out.new.items (ticks_as number at due s shards)) }
{
    match due {
        Due::Nothing => Ok(true),
        Due::Ping => {
            put_frame(alloc, out, number, &Frame::Ping)?;
            Ok(true)
        }
        Due::Expired => {
            put_end(alloc, out, number, NO_PONG)?;
            Ok(false)
        }
    }
}

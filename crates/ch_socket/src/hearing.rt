ghost use Rattle.std.specs.Prelude.{◌≡◌, IfOk, OnErr};
ghost use Rattle.ch_config.specs.Config.{IsConfig};
ghost use Rattle.ch_desk.specs.AloneCalls.{IsAlone, IsAt};
ghost use Rattle.ch_desk.specs.Views.{IsDeskOf};
ghost use Rattle.ch_history.specs.Limits.{IsMoment};
ghost use Rattle.ch_protocol.specs.Shards.{Shards};
ghost use Rattle.ch_socket.specs.Sockets.{IsReady, IsOpen};
ghost use Rattle.ch_socket.specs.Turns.{HearsAs, MakesCalls, StaysReady};
ghost use Rattle.ch_transcript.specs.Progress.{Socket};

use crate::responding::put_response;
use crate::turns::finish;
use ch_base::{Memory, Text};
use ch_config::Config;
use ch_desk::{Desk, calls_alone, calls_chain};
use ch_session::Session;
use std::alloc::Global;

/// Lets the socket with this number hear a text at the moment `at`: what it asks of the shards is asked at the
/// desk, and what it is told is added to the output. The session is given back unless the connection ends.
///
/// Where there is no memory the output stays as it is, and the calls that were made stay made.
pub fn hear<R, D: Desk<R>>(
    alloc: Global,
    rt: &R,
    config: &Config,
    desk: &mut D,
    session: Session,
    number: u64,
    text: &Text,
    at: u64,
    out: &mut Vec<u8>,
) -> Result<Option<Session>, Memory>
    requires config { IsConfig config.now }
    requires at { IsMoment at }
    requires ready { IsReady config.now number session }
    requires desk { IsDeskOf config.now (D.view desk.old) }
    ensures hears { (s : Socket) (shards : Shards) → IsOpen number session s → IsAt (D.view desk.old) shards → IsAlone (D.view desk.new)
        → IfOk result (λ left. HearsAs config.now number at text.now s shards left (D.view desk.new) out.old.items out.new.items) }
    ensures ready { IfOk result (StaysReady config.now number) }
    ensures desk { IsDeskOf config.now (D.view desk.new) }
    ensures calls { MakesCalls config.now at text.now session (D.view desk.old) (D.view desk.new) }
    ensures output { OnErr result (out.new.items ≡ out.old.items) }
{
    calls_alone();
    calls_chain();
    let mut session = session;
    let response = ch_dispatch::hear(rt, desk, config, &mut session, text, at);
    let mut lines = Vec::new(alloc);
    let goes_on = put_response(alloc, &mut lines, number, response)?;
    let left = finish(rt, desk, session, number, at, goes_on)?;
    out.extend_from_slice(lines.as_slice())?;
    Ok(left)
}

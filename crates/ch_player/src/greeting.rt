ghost use Rattle.std.specs.Prelude.{IfOk};
ghost use Rattle.ch_config.specs.Config.{IsConfig};
ghost use Rattle.ch_history.specs.Limits.{IsMoment, IsSocket};
ghost use Rattle.ch_protocol.specs.Targets.{target_refusal};
ghost use Rattle.ch_socket.specs.Turns.{StaysReady};
ghost use Rattle.ch_player.specs.Steps.{Greets};

use ch_base::{Frame, Memory, Text};
use ch_config::Config;
use ch_session::{Session, StartFault};
use ch_socket::{put_end, put_frame};
use ch_transcript::START_SECOND;
use std::alloc::Global;

/// Opens the connection with this number, or refuses its target, and tells the socket so.
pub fn greet(
    alloc: Global,
    config: &Config,
    number: u64,
    target: &Text,
    at: u64,
    out: &mut Vec<u8>,
) -> Result<Option<Session>, Memory>
    requires config { IsConfig config.now }
    requires number { IsSocket number }
    requires moment { IsMoment at }
    ensures greets { IfOk result (λ o. Greets number at (target_refusal config.now.key target.now) out.old.items out.new.items o) }
    ensures ready { IfOk result (StaysReady config.now number) }
{
    match Session::start(alloc, config, START_SECOND, number, target.as_str(), at) {
        Ok(session) => {
            put_frame(alloc, out, number, &Frame::Opened { number })?;
            Ok(Some(session))
        }
        Err(StartFault::Code(code)) => {
            put_end(alloc, out, number, code)?;
            Ok(None)
        }
        Err(StartFault::Memory) => Err(Memory),
    }
}

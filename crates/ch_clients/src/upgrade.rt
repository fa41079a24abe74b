ghost use Rattle.std.specs.Prelude.{IfSome};
ghost use Rattle.ch_clients.specs.Serving.{IsUpgraded};
ghost use Rattle.ch_clients.specs.Steps.{setting_with};
ghost use Rattle.ch_config.specs.Config.{IsConfig};
ghost use Rattle.ch_history.specs.Limits.{IsMoment, IsSocket};
ghost use Rattle.ch_live.specs.Peers.{IsPeerOver};

use crate::server::Server;
use ch_base::Text;
use ch_exchange::Exchange;
use ch_live::Live;
use ch_net::Link;
use ch_session::{Session, StartFault};

/// The live socket of a handshake whose reply was written: its session, or the refusal of its target, over
/// the wire that its link becomes. None for want of memory, and the link is dropped then.
pub(crate) fn upgrade<L: Link>(
    server: &Server,
    number: u64,
    exchange: Exchange<L>,
    target: &Text,
    now: u64,
) -> Option<Live<L::Wire>>
    requires config { IsConfig server.now.config }
    requires number { IsSocket number }
    requires now { IsMoment now }
    ensures upgraded { IfSome result (λ live.
        IsUpgraded (setting_with server.now now L.messages)
        number target.now exchange.stage (L.told exchange.link) live.peer (L.Wire.told live.wire)) }
    ensures over { IfSome result (λ live. IsPeerOver server.now.config live.peer) }
{
    let (link, seen) = exchange.into_parts();
    let Ok(wire) = link.upgrade(seen) else {
        return None;
    };
    let alloc = server.alloc;
    match Session::start(
        alloc,
        &server.config,
        server.start,
        number,
        target.as_str(),
        now,
    ) {
        Ok(session) => match Live::new(alloc, session, wire) {
            Ok(live) => Some(live),
            Err(_) => None,
        },
        Err(StartFault::Code(code)) => Some(Live::refused(alloc, code, wire)),
        Err(StartFault::Memory) => None,
    }
}

ghost use Rattle.std.specs.Prelude.{◌≡◌, ℕ, List, All, Some, None};
ghost use Rattle.ch_base.specs.declared.frame.Frame.TheVariants.{Error};
ghost use Rattle.ch_base.specs.declared.error_codes.TheConstants.{MALFORMED_MESSAGE};
ghost use Rattle.ch_config.specs.Config.{IsConfig};
ghost use Rattle.ch_desk.specs.Views.{IsDeskOf, MayAsk};
ghost use Rattle.ch_history.specs.Limits.{IsMoment};
ghost use Rattle.ch_protocol.specs.Asks.{Asked};
ghost use Rattle.ch_protocol.specs.Settling.{SettledAsk};
ghost use Rattle.ch_rate.specs.Quiet.{quiet_from};
ghost use Rattle.ch_session.specs.Judging.{asks_of};
ghost use Rattle.ch_session.specs.Kept.{HasShardsOf, IsSession};
ghost use Rattle.ch_session.specs.Waits.{Awaits};
ghost use Rattle.ch_session.specs.declared.waiting.Waiting.TheVariants.{Nothing};
ghost use Rattle.ch_dispatch.specs.Asking.{Responds};
ghost use Rattle.ch_dispatch.specs.Hearing.{Hears};

use crate::asking::make_asks;
use crate::response::Response;
use ch_base::Text;
use ch_config::Config;
use ch_desk::Desk;
use ch_protocol::Heard;
use ch_session::Session;

/// Lets the session hear a text at the moment `now`, while no ask waits to be settled, and makes its asks at
/// the desk. It may wait.
///
/// A text for which there is no memory is refused with `OUT_OF_MEMORY`, and so is one whose first ask finds none; where
/// a later ask finds none, the connection ends with `RECONNECT`.
pub fn hear<R, D: Desk<R>>(
    rt: &R,
    desk: &mut D,
    config: &Config,
    session: &mut Session,
    text: &Text,
    now: u64,
) -> Response
    requires config { IsConfig config.now }
    requires desk { IsDeskOf config.now (D.view desk.old) }
    requires over { HasShardsOf session.old config.now }
    requires idle { session.old.waits ≡ Nothing }
    requires now { IsMoment now }
    ensures hears { (asked : List Asked) × Hears config.now now text.now asked
        (record { session = session.old; desk = D.view desk.old }) (record { session = session.new; desk = D.view desk.new }) result }
    ensures over { HasShardsOf session.new config.now }
    ensures desk { IsDeskOf config.now (D.view desk.new) }
{
    let heard = session.hear(config, text, now);
    respond(rt, desk, session, heard, now)
}

/// Lets the session hear a binary message at the moment `now`. It is refused with `MALFORMED_MESSAGE`.
pub fn hear_binary(session: &mut Session, now: u64) -> Response
    requires { IsMoment now }
    ensures refused { result ≡ record { reply = Some (Error MALFORMED_MESSAGE); end = None } }
    ensures stands { (start number : ℕ) (asks : List SettledAsk) → IsSession session.old start number asks
        → IsSession session.new start number asks }
    ensures same { session.new ≡ record session.old { quiet = quiet_from now } }
{
    match session.binary(now) {
        Heard::Refuse(code) => Response::refusal(code),
        _ => unreachable!(),
    }
}

/// Does what the session made of a message.
fn respond<R, D: Desk<R>>(
    rt: &R,
    desk: &mut D,
    session: &mut Session,
    heard: Heard,
    now: u64,
) -> Response
    requires asks { All (MayAsk (D.view desk.old)) (asks_of heard) }
    requires waits { Awaits session.old.waits 0 (asks_of heard) }
    requires now { IsMoment now }
    ensures { Responds now heard (record { session = session.old; desk = D.view desk.old })
        (record { session = session.new; desk = D.view desk.new }) result }
{
    match heard {
        Heard::Nothing => Response::nothing(),
        Heard::Reply(frame) => Response::reply(frame),
        Heard::Refuse(code) => Response::refusal(code),
        Heard::Ask(asks) => make_asks(rt, desk, session, &asks, now),
        Heard::End(code) => Response::end(code),
    }
}

ghost use Rattle.std.specs.Prelude.{◌∷◌, List, All};
ghost use Rattle.ch_desk.specs.Views.{MayAsk};
ghost use Rattle.ch_history.specs.Limits.{IsMoment};
ghost use Rattle.ch_protocol.specs.declared.ask.Ask.{Ask};
ghost use Rattle.ch_protocol.specs.declared.heard.Heard.TheVariants as heard;
ghost use Rattle.ch_session.specs.Waits.{Awaits};
ghost use Rattle.ch_dispatch.specs.Asking.{AsksOne, Responds};

use crate::response::Response;
use ch_desk::{Desk, make};
use ch_protocol::{Ask, AskList, Settled};
use ch_session::Session;

/// Makes the asks of a message one after another, up to the first that refuses or ends the connection.
pub(crate) fn make_asks<R, D: Desk<R>>(
    rt: &R,
    desk: &mut D,
    session: &mut Session,
    asks: &AskList,
    now: u64,
) -> Response
    requires now { IsMoment now }
    requires asks { All (MayAsk (D.view desk.old)) asks.now }
    requires waits { Awaits session.old.waits 0 asks.now }
    ensures { Responds now (heard.Ask asks.now) (record { session = session.old; desk = D.view desk.old })
        (record { session = session.new; desk = D.view desk.new }) result }
{
    let mut response = Response::nothing();
    let mut place = 0;
    for ask in asks.as_slice() {
        let settled = make_ask(rt, desk, session, place, ask, now);
        if !response.add(settled) {
            return response;
        }
        place += 1;
    }
    response
}

/// Makes the ask at a place of its message, and settles it.
fn make_ask<R, D: Desk<R>>(
    rt: &R,
    desk: &mut D,
    session: &mut Session,
    place: u64,
    ask: &Ask,
    now: u64,
) -> Settled
    requires now { IsMoment now }
    requires ask { MayAsk (D.view desk.old) ask.now }
    requires next { (rest : List Ask) × Awaits session.old.waits place (ask.now ∷ rest) }
    ensures { AsksOne now place ask.now (record { session = session.old; desk = D.view desk.old })
        (record { session = session.new; desk = D.view desk.new }) result }
{
    let made = make(rt, desk, ask);
    session.settle(place, &made, now)
}

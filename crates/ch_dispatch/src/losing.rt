ghost use Rattle.std.specs.Prelude.{◌≡◌, ◌∷◌, [], List, OnOk};
ghost use Rattle.ch_desk.specs.OwnEntries.{Makes, was_made};
ghost use Rattle.ch_desk.specs.Views.{MayAsk};
ghost use Rattle.ch_history.specs.Limits.{IsMoment};
ghost use Rattle.ch_protocol.specs.Asks.{Asked, ComesOf};
ghost use Rattle.ch_protocol.specs.declared.ask.Made.{Made};
ghost use Rattle.ch_dispatch.specs.Losses.{IsOverDesk, OwesLoss, MakesLosses, AreAllLosses};

use ch_base::Memory;
use ch_desk::{Desk, make};
use ch_protocol::{Ask, Made};
use ch_session::Session;

/// Makes the losses of a session that are left, in order, at the moment `now`: one on each shard that the
/// session uses. Where there was no memory, those that were made stay made, and a later call goes on where
/// this one stopped. It may wait.
pub fn lose<R, D: Desk<R>>(
    rt: &R,
    desk: &mut D,
    session: &mut Session,
    now: u64,
) -> Result<(), Memory>
    requires now { IsMoment now }
    requires over { IsOverDesk session.old (D.view desk.old) }
    ensures losses { (asked : List Asked) × MakesLosses now asked session.old session.new (D.view desk.old) (D.view desk.new)
        × OnOk result (AreAllLosses now asked session.old) }
    ensures all { OnOk result (OwesLoss session.new → ⊥) }
    ensures over { IsOverDesk session.new (D.view desk.new) }
{
    while let Some(ask) = session.next_loss(now) {
        if !make_loss(rt, desk, ask) {
            return Err(Memory);
        }
        session.loss_made();
    }
    Ok(())
}

/// Makes one loss, and answers whether there was memory for it.
fn make_loss<R, D: Desk<R>>(rt: &R, desk: &mut D, ask: Ask) -> bool
    requires { MayAsk (D.view desk.old) ask }
    ensures { (came : Made) × (result ≡ was_made came) × ComesOf ask came
        × Makes (record { ask = ask; came = came } ∷ []) (D.view desk.old) (D.view desk.new) }
{
    let made = make(rt, desk, &ask);
    was_made(made)
}

/// Whether there was memory for what was asked.
fn was_made(made: Made) -> bool
    ensures { result ≡ was_made made }
{
    match made {
        Made::Chan(_) | Made::User(_) => true,
        Made::Memory => false,
    }
}

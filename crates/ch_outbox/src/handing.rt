ghost use Rattle.std.specs.Prelude.{◌≡◌, ℕ, ◌<◌, [], ◌∷◌, ◌++◌, All, IfOk, OnOk};
ghost use Rattle.std.specs.Arc.{arc_value};
ghost use Rattle.ch_history.specs.Deliveries.{delivery};
ghost use Rattle.ch_history.specs.Frames.{is_other};
ghost use Rattle.ch_outbox.specs.Handed.{handed};

use ch_base::{Memory, Printed, Shared};
use ch_history::Delivery;
use ch_index::{Holder, Holders};
use std::sync::Arc;

/// Adds the frame for each of these sockets but the excepted one. All of them share it. Also where there is no memory, the
/// owners are those before and those of the sockets.
pub fn hand_out(
    mut holders: Holders<'_>,
    printed: &Arc<Printed>,
    except: Option<u64>,
    made: &mut Vec<Delivery>,
) -> Result<(), Memory>
    ensures told { OnOk result (made.new.items ≡ made.old.items ++ handed (arc_value printed.now) except holders.entry) }
    ensures owners { (n : ℕ) → All (λ d. d.owner < n) made.old.items → All (λ h. h.owner < n) holders.entry → All (λ d. d.owner < n) made.new.items }
{
    'holders: while let Some(holder) = holders.next() {
        hand_to(*holder, printed, except, made)?;
    }
    Ok(())
}

/// Adds the frame for the socket, unless it is the excepted one.
fn hand_to(
    holder: Holder,
    printed: &Arc<Printed>,
    except: Option<u64>,
    made: &mut Vec<Delivery>,
) -> Result<(), Memory>
    ensures told { OnOk result (made.new.items ≡ made.old.items ++ handed (arc_value printed.now) except (holder ∷ [])) }
    ensures owners { (n : ℕ) → All (λ d. d.owner < n) made.old.items → holder.owner < n → All (λ d. d.owner < n) made.new.items }
{
    if is_other(except, holder.socket) {
        let delivery = delivery(holder, printed)?;
        made.push(delivery)?;
    }
    Ok(())
}

/// The frame for one socket, which shares it with the others that get it.
pub fn delivery(holder: Holder, printed: &Arc<Printed>) -> Result<Delivery, Memory>
    ensures { IfOk result (λ d. d ≡ delivery holder.owner holder.socket (arc_value printed.now)) }
{
    let printed = Arc::try_clone(printed)?;
    Ok(Delivery {
        owner: holder.owner,
        item: Shared::new(holder.socket, printed),
    })
}

/// Whether the socket is another than the excepted one.
fn is_other(except: Option<u64>, socket: u64) -> bool
    ensures { result ≡ is_other except socket }
{
    match except {
        None => true,
        Some(excepted) => socket != excepted,
    }
}

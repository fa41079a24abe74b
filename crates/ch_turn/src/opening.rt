//! How a lock begins: a table with the value at home, and one seat that is dealt out to the passes.
ghost use Rattle.std.specs.Prelude.{◌≡◌, ℕ, ◌<◌, ◌≤◌, [], length, slice_index_or, None, Some, IfOk, vec_capacity};
ghost use Rattle.ch_base.specs.declared.limits.TheConstants.{MAX_CALLERS};
ghost use Rattle.ch_turn.specs.Views.{first_view};
ghost use Rattle.ch_turn.specs.SeatStates.{dealer_view};
ghost use Rattle.ch_turn.specs.PassModels.{lock_model, fresh_pass};

use crate::pass::Pass;
use crate::steps::Deal;
use crate::table::{LockSeat, LockTable, Opening, SharedTable, Slot};
use atomic_table::Table;
use ch_base::{Memory, Served};
use std::alloc::Global;
use std::snapshot::Snapshot;

/// The table of a lock that has served no call, with the seat of all callers.
pub(crate) fn lay_table<T: Served>(
    alloc: Global,
    value: T,
    callers: u64,
) -> Result<(LockTable<T>, LockSeat<T>), Memory>
    requires callers { callers ≤ MAX_CALLERS }
    requires empty { T.stands value [] }
    ensures sizes { IfOk result (λ r. (r.0.shared.table_id.words ≡ 3) × (r.0.shared.table_id.slots ≡ 1)) }
    ensures callers { IfOk result (λ r. r.0.shared.key.callers ≡ callers) }
    ensures place { IfOk result (λ r. T.place r.0.shared.key.value.value ≡ T.place value) }
    ensures seat { IfOk result (λ r. (r.1.table_id ≡ r.0.shared.table_id) × (r.1.me ≡ (first_view (T.place value) callers, []))) }
{
    let opening = Opening {
        callers,
        value: Snapshot::of(&value),
    };
    let mut slots = Vec::new(alloc);
    slots.push(Slot::Value(value))?;
    match Table::new(alloc, &[0, 0, 0], slots, &opening) {
        Ok(made) => Ok(made),
        Err(_refused) => Err(Memory),
    }
}

/// A pass for each caller, in order. The lowest number goes first, and the last pass has the seat itself.
pub(crate) fn deal_passes<T: Served>(
    table: &SharedTable<T>,
    mut seat: LockSeat<T>,
    mut passes: Vec<Option<Pass<T>>>,
    callers: u64,
) -> Vec<Option<Pass<T>>>
    requires table { (seat.table_id ≡ table.now.table_id) × (table.now.table_id.words ≡ 3) }
    requires seat { seat.me ≡ (dealer_view seat.me.0.place callers 0, []) }
    requires room { (passes.items ≡ []) × (callers ≤ vec_capacity passes) }
    requires callers { (0 < callers) × (callers ≤ MAX_CALLERS) }
    requires legal { T.legal seat.me.0.place [] }
    ensures count { length result.items ≡ callers }
    ensures each { (i : ℕ) → i < callers
        → slice_index_or result.items i None ≡ Some (fresh_pass (lock_model seat.table_id callers seat.me.0.place) i) }
{
    for caller in 0..callers - 1 {
        let own = table.split_seat::<Deal>(&mut seat);
        passes.push_reserved(Some(Pass {
            seat: own,
            caller,
            calls: 0,
        }));
    }
    passes.push_reserved(Some(Pass {
        seat,
        caller: callers - 1,
        calls: 0,
    }));
    passes
}

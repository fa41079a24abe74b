//! How a row begins: each value goes into a lock, and each caller is dealt a pass of each lock.
ghost use Rattle.std.specs.Prelude.{◌≡◌, ℕ, ◌<◌, ◌≤◌, [], length, map, All, slice_get, slice_index_or, None, Some, IsSome, IfOk};
ghost use Rattle.ch_base.specs.declared.limits.TheConstants.{MAX_CALLERS};
ghost use Rattle.ch_turn.specs.PassModels.{LockModel, PassModel, PassListModel, IsPassOf};
ghost use Rattle.ch_house.specs.Rows.{fresh_passes};
ghost use Rattle.ch_house.specs.Columns.{IsFresh, without_pass};

use crate::locks::Locks;
use crate::row_passes::RowPasses;
use crate::row_passes_list::RowPassesList;
use ch_base::{Memory, Served};
use ch_turn::{Pass, PassList, TurnLock};
use std::alloc::Global;
use std::snapshot::Snapshot;

/// A lock round each value, and the list of the passes of each lock.
pub(crate) fn lock_each<T: Served>(
    alloc: Global,
    values: Vec<T>,
    callers: u64,
) -> Result<(Vec<TurnLock<T>>, Vec<PassList<T>>), Memory>
    requires callers { (1 ≤ callers) × (callers ≤ MAX_CALLERS) }
    requires empty { All (λ v. T.stands v []) values.items }
    ensures places { IfOk result (λ made. map (λ l. l.place) made.0.items ≡ map T.place values.items) }
    ensures callers { IfOk result (λ made. (k : ℕ) (l : LockModel) → slice_get made.0.items k ≡ Some l
        → l.callers ≡ callers) }
    ensures own { IfOk result (λ made. map (λ m. m.lock) made.1.items ≡ made.0.items) }
    ensures fresh { IfOk result (λ made. (k : ℕ) (m : PassListModel T.Call T.Answer)
        → slice_get made.1.items k ≡ Some m → IsFresh callers m) }
{
    let mut locks = Vec::with_capacity(alloc, values.len())?;
    let mut lists = Vec::with_capacity(alloc, values.len())?;
    for value in values {
        let (lock, list) = TurnLock::new(alloc, value, callers)?;
        locks.push(lock)?;
        lists.push(list)?;
    }
    Ok((locks, lists))
}

/// Takes the pass of the caller out of each list.
fn take_each<T: Served>(
    alloc: Global,
    lists: &mut Vec<PassList<T>>,
    caller: u64,
) -> Result<Vec<Pass<T>>, Memory>
    requires there { (k : ℕ) (m : PassListModel T.Call T.Answer) → slice_get lists.old.items k ≡ Some m
        → IsSome (slice_index_or m.slots caller None) }
    ensures count { IfOk result (λ passes. length passes.items ≡ length lists.old.items) }
    ensures taken { IfOk result (λ passes. (k : ℕ) (m : PassListModel T.Call T.Answer) (p : PassModel T.Call T.Answer)
        → slice_get lists.old.items k ≡ Some m → slice_get passes.items k ≡ Some p
        → (slice_index_or m.slots caller None ≡ Some p) × IsPassOf T.legal m.lock caller p) }
    ensures left { IfOk result (λ _. lists.new.items ≡ map (without_pass caller) lists.old.items) }
{
    let mut passes = Vec::with_capacity(alloc, lists.len())?;
    for list in lists.iter_mut() {
        let Some(pass) = list.take(caller) else {
            unreachable!()
        };
        passes.push(pass)?;
    }
    Ok(passes)
}

/// Deals out the passes of all callers.
pub(crate) fn deal<T: Served>(
    alloc: Global,
    locks: &Locks<T>,
    mut lists: Vec<PassList<T>>,
) -> Result<RowPassesList<T>, Memory>
    requires own { map (λ m. m.lock) lists.items ≡ locks.now.locks }
    requires fresh { (k : ℕ) (m : PassListModel T.Call T.Answer) → slice_get lists.items k ≡ Some m
        → IsFresh locks.now.callers m }
    ensures own { IfOk result (λ made. made.row ≡ locks.now) }
    ensures count { IfOk result (λ made. length made.slots ≡ locks.now.callers) }
    ensures passes { IfOk result (λ made. (i : ℕ) → i < locks.now.callers
        → slice_index_or made.slots i None ≡ Some (fresh_passes locks.now i)) }
{
    let room = Vec::with_capacity(alloc, lists.len())?;
    let mut rows = Vec::new(alloc);
    for caller in 0..locks.callers {
        let passes = take_each(alloc, &mut lists, caller)?;
        rows.push(Some(RowPasses {
            passes,
            caller,
            row: Snapshot::of(locks),
        }))?;
    }
    Ok(RowPassesList {
        rows,
        lists,
        room,
        row: Snapshot::of(locks),
    })
}

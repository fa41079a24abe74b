//! A row of locks.
ghost use Rattle.std.specs.Prelude.{◌≡◌, ℕ, ◌<◌, ◌≤◌, [], length, map, All, slice_get, slice_index_or, None, Some, IfOk, IsOk};
ghost use Rattle.ch_base.specs.Growth.{GrowsBy};
ghost use Rattle.ch_base.specs.declared.limits.TheConstants.{MAX_CALLERS};
ghost use Rattle.ch_config.specs.declared.limits.TheConstants.{MAX_SHARDS};
ghost use Rattle.ch_turn.specs.Callers.{CallersBelow};
ghost use Rattle.ch_turn.specs.declared.closing.Closed.{Closed as closed};
ghost use Rattle.ch_house.specs.Rows.{places, place_of, seen, calls_on, fresh_passes, after_call, IsWhole, HasRowHistory};
ghost use Rattle.ch_turn.specs.declared.limits.TheConstants.{MOST_CALLS};

use crate::closing::close_each;
use crate::dealing::{deal, lock_each};
use crate::row_passes::RowPasses;
use crate::row_passes_list::RowPassesList;
use ch_base::{Items, Memory, Served};
use ch_turn::{Closed, TurnLock};
use std::alloc::Global;
use std::marker::Model;
use std::sync::Wait;

/// The values that a row is made of.
pub type ValueList<T> = Items<T>;

/// What was closed, for each lock of a row.
pub type ClosedList<T> = Items<Closed<T>>;

/// Locks in a row, each round a value of its own. Contracts see the locks in order, and the number of callers.
#[derive(Drop)]
pub struct Locks<T: Served> {
    pub(crate) locks: Vec<TurnLock<T>>,
    pub(crate) callers: u64,
}

impl<T: Served> Model for Locks<T> {
    ghost use Rattle.ch_house.specs.Rows.{RowModel, row_model, IsRow};

    ghost Value = { RowModel };

    ghost view = { λ l. row_model l.locks.items l.callers };

    ghost invariant = { λ l. IsRow (row_model l.locks.items l.callers) };
}

impl<T: Served> Locks<T> {
    /// A lock round each of the 1 to [`MAX_SHARDS`](ch_config::MAX_SHARDS) values, none of which has served a call, with
    /// passes for each of the 1 to [`MAX_CALLERS`](ch_base::MAX_CALLERS) callers.
    pub fn new(
        alloc: Global,
        values: ValueList<T>,
        callers: u64,
    ) -> Result<(Locks<T>, RowPassesList<T>), Memory>
        requires values { (1 ≤ length values) × (length values ≤ MAX_SHARDS) }
        requires callers { (1 ≤ callers) × (callers ≤ MAX_CALLERS) }
        requires empty { All (λ v. T.stands v []) values }
        ensures locks { IfOk result (λ made. length made.0.locks ≡ length values) }
        ensures places { IfOk result (λ made. places made.0 ≡ map T.place values) }
        ensures callers { IfOk result (λ made. made.0.callers ≡ callers) }
        ensures own { IfOk result (λ made. made.1.row ≡ made.0) }
        ensures count { IfOk result (λ made. length made.1.slots ≡ callers) }
        ensures passes { IfOk result (λ made. (i : ℕ) → i < callers
            → slice_index_or made.1.slots i None ≡ Some (fresh_passes made.0 i)) }
    {
        let (locks, lists) = lock_each(alloc, values.into_vec(), callers)?;
        let locks = Locks { locks, callers };
        let passes = deal(alloc, &locks, lists)?;
        Ok((locks, passes))
    }

    /// Serves the call on the value in lock k when its turn comes. What the caller has seen of that lock grows by the
    /// call; what it has seen of the others stays.
    ///
    /// It may wait for ever. A caller makes at most [`MOST_CALLS`](ch_turn::MOST_CALLS) calls on one lock, and its next one does not return.
    pub fn call<R: Wait>(
        &self,
        rt: &R,
        passes: &mut RowPasses<T>,
        k: u64,
        call: &T::Call,
    ) -> Result<T::Answer, Memory>
        requires own { passes.old.row ≡ self.now }
        requires lock { k < length self.now.locks }
        requires fits { T.fits (place_of self.now k) call.now }
        ensures grows { GrowsBy passes.old.caller call.now result (seen passes.old k) (seen passes.new k) }
        ensures legal { T.legal (place_of self.now k) (seen passes.new k) }
        ensures known_callers { CallersBelow self.now.callers (seen passes.new k) }
        ensures sure { T.sure call.now → IsOk result }
        ensures same { passes.new ≡ after_call passes.old k (seen passes.new k) }
        ensures most { calls_on passes.new k ≤ MOST_CALLS }
    {
        let lock = &self.locks[k as usize];
        let pass = &mut passes.passes[k as usize];
        lock.call(rt, pass, call)
    }

    /// What is in each lock at the end. It takes no memory.
    pub fn close(self, passes: RowPassesList<T>) -> ClosedList<T>
        requires own { passes.row ≡ self }
        requires all { IsWhole passes }
        ensures count { length result ≡ length self.locks }
        ensures histories { (k : ℕ) (c : closed T) → slice_get result k ≡ Some c
            → HasRowHistory T.legal T.stands self k passes.slots c }
        ensures places { (k : ℕ) (c : closed T) → slice_get result k ≡ Some c
            → T.place c.value ≡ place_of self k }
    {
        let Locks { locks, callers: _ } = self;
        let (lists, room) = passes.give_back();
        Items::from_vec(close_each(locks, lists, room))
    }
}

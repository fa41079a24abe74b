//! The lock.
ghost use Rattle.std.specs.Prelude.{◌≡◌, ◌⊎◌, ℕ, ◌+◌, ◌<◌, ◌≤◌, [], length, slice_index_or, None, Some, IfOk, IsOk};
ghost use mathlib.Core.List.{IsPrefix};
ghost use Rattle.ch_base.specs.Growth.{GrowsBy};
ghost use Rattle.ch_base.specs.declared.limits.TheConstants.{MAX_CALLERS};
ghost use Rattle.ch_turn.specs.Callers.{CallersBelow};
ghost use Rattle.ch_turn.specs.PassModels.{fresh_pass, IsWhole, HasHistory};
ghost use Rattle.ch_turn.specs.declared.limits.TheConstants.{MOST_CALLS};

use crate::call::serve_in_turn;
use crate::closing::{Closed, gather};
use crate::limits::MOST_CALLS;
use crate::opening::{deal_passes, lay_table};
use crate::pass::Pass;
use crate::pass_list::PassList;
use crate::steps::{Merge, TakeOver, Tell};
use crate::table::{COUNT, HOME, LockTable, Slot, TICKET};
use ch_base::{Memory, Served};
use std::alloc::Global;
use std::marker::Model;
use std::snapshot::Snapshot;
use std::sync::Wait;

/// A value whose calls are served in the order of their tickets. Contracts see the table, the number of callers and
/// the place of the value.
#[derive(Drop)]
pub struct TurnLock<T: Served> {
    table: LockTable<T>,
}

impl<T: Served> Model for TurnLock<T> {
    ghost use Rattle.std.specs.Prelude.{◌≡◌, ◌<◌, ◌≤◌};
    ghost use Rattle.ch_turn.specs.PassModels.{LockModel};

    ghost Value = { LockModel };

    ghost view = { λ l. record {
      table = l.table.shared.table_id;
      callers = l.table.shared.key.callers;
      place = T.place l.table.shared.key.value.value;
    } };

    ghost invariant = { λ l. (l.table.shared.table_id.words ≡ 3)
        × (l.table.shared.table_id.slots ≡ 1)
        × (0 < l.table.shared.key.callers) };
}

impl<T: Served> TurnLock<T> {
    /// A lock round a value that has served no call, with a pass for each of the 1 to
    /// [`MAX_CALLERS`](ch_base::MAX_CALLERS) callers.
    pub fn new(alloc: Global, value: T, callers: u64) -> Result<(TurnLock<T>, PassList<T>), Memory>
        requires callers { (0 < callers) × (callers ≤ MAX_CALLERS) }
        requires empty { T.stands value [] }
        ensures lock { IfOk result (λ made. (made.0.callers ≡ callers) × (made.0.place ≡ T.place value)) }
        ensures own { IfOk result (λ made. made.1.lock ≡ made.0) }
        ensures count { IfOk result (λ made. length made.1.slots ≡ callers) }
        ensures passes { IfOk result (λ made. (i : ℕ) → i < callers
            → slice_index_or made.1.slots i None ≡ Some (fresh_pass made.0 i)) }
    {
        let passes = Vec::with_capacity(alloc, callers as usize)?;
        let (table, seat) = lay_table(alloc, value, callers)?;
        let passes = deal_passes(&table.shared, seat, passes, callers);
        let lock = TurnLock { table };
        let of = Snapshot::of(&lock);
        Ok((lock, PassList { passes, lock: of }))
    }

    /// Serves the call when its turn comes. The pass has then seen all that was entered before, and the call itself
    /// where it has an answer: a call that found no memory has no place in the history.
    ///
    /// It may wait for ever. A pass makes at most [`MOST_CALLS`] calls, and its next one does not return.
    pub fn call<R: Wait>(
        &self,
        rt: &R,
        pass: &mut Pass<T>,
        call: &T::Call,
    ) -> Result<T::Answer, Memory>
        requires own { pass.old.lock ≡ self.now }
        requires fits { T.fits self.now.place call.now }
        ensures grows { GrowsBy pass.old.caller call.now result pass.old.seen pass.new.seen }
        ensures legal { T.legal self.now.place pass.new.seen }
        ensures known_callers { CallersBelow self.now.callers pass.new.seen }
        ensures sure { T.sure call.now → IsOk result }
        ensures same { pass.new ≡ record pass.old { seen = pass.new.seen; calls = pass.old.calls + 1 } }
        ensures most { pass.new.calls ≤ MOST_CALLS }
    {
        if pass.calls >= MOST_CALLS {
            for _ in rt.forever() {}
            unreachable!()
        }
        let answer = serve_in_turn(rt, &self.table.shared, &mut pass.seat, pass.caller, call);
        pass.calls += 1;
        answer
    }

    /// Tells `pass` what `other` has seen. It neither waits nor takes memory.
    pub fn meet(&self, pass: &mut Pass<T>, other: &mut Pass<T>)
        requires own { (pass.old.lock ≡ self.now) × (other.old.lock ≡ self.now) }
        ensures longer { (pass.new.seen ≡ pass.old.seen) ⊎ (pass.new.seen ≡ other.old.seen) }
        ensures prefixes { IsPrefix pass.old.seen pass.new.seen × IsPrefix other.old.seen pass.new.seen }
        ensures legal { T.legal self.now.place pass.new.seen }
        ensures known_callers { CallersBelow self.now.callers pass.new.seen }
        ensures same { pass.new ≡ record pass.old { seen = pass.new.seen } }
        ensures other { other.new ≡ other.old }
    {
        let shared = &self.table.shared;
        let told = shared.split_seat::<Tell>(&mut other.seat);
        shared.join_seat::<TakeOver>(&mut pass.seat, told);
        shared.load::<Merge<T>>(&mut pass.seat, TICKET);
    }

    /// The value, with the length of the one legal history that it stands for: the longest of the passes' lists. It
    /// begins with the list of each pass, has no entry of the pass's caller after that, and none of anyone else.
    pub fn close(self, passes: PassList<T>) -> Closed<T>
        requires own { passes.lock ≡ self }
        requires all { IsWhole passes }
        ensures history { HasHistory T.legal T.stands self passes.slots result.value result.entries }
        ensures place { T.place result.value ≡ self.place }
    {
        let TurnLock { table } = self;
        let seat = gather(&table.shared, passes);
        let mut closed = table.close_with(seat);
        let entries = closed.word(COUNT);
        let Slot::Value(value) = closed.take(HOME) else {
            unreachable!()
        };
        closed.free();
        Closed { value, entries }
    }
}

//! What a caller calls a row of locks with.
ghost use Rattle.std.specs.Prelude.{◌≡◌, ◌<◌, ℕ, length, slice_get, Some};
ghost use Rattle.ch_base.specs.declared.limits.TheConstants.{MAX_CALLERS};
ghost use Rattle.ch_turn.specs.Callers.{CallersBelow};
ghost use Rattle.ch_turn.specs.PassModels.{PassModel};
ghost use Rattle.ch_house.specs.Rows.{place_of, seen};
ghost use Rattle.ch_house.specs.Columns.{AreOfRow};

use crate::locks::Locks;
use ch_base::Served;
use ch_turn::Pass;
use std::marker::Model;
use std::snapshot::Snapshot;

/// A pass for each lock of a row, all of one caller. Contracts see the row, the caller number, and for each lock the
/// list of entries that the caller has seen and the number of its calls.
#[derive(Drop)]
pub struct RowPasses<T: Served> {
    pub(crate) passes: Vec<Pass<T>>,
    pub(crate) caller: u64,
    pub(crate) row: Snapshot<Locks<T>>,
}

impl<T: Served> Model for RowPasses<T> {
    ghost use Rattle.std.specs.Prelude.{map};
    ghost use Rattle.ch_house.specs.Rows.{RowPassesModel};
    ghost use Rattle.ch_house.specs.Columns.{AreOfRow};

    ghost Value = { RowPassesModel T.Call T.Answer };

    ghost view = { λ r. record {
      row = r.row.value;
      caller = r.caller;
      lists = map (λ p. p.seen) r.passes.items;
      calls = map (λ p. p.calls) r.passes.items;
    } };

    ghost invariant = { λ r. AreOfRow T.legal r.row.value r.caller r.passes.items };
}

impl<T: Served> RowPasses<T> {
    /// The caller number. Whatever the caller has seen of a lock is legal at its place, and is of the row's callers.
    pub fn caller(&self) -> u64
        ensures caller { result ≡ self.now.caller }
        ensures below { (result < self.now.row.callers) × (result < MAX_CALLERS) }
        ensures legal { (k : ℕ) → k < length self.now.row.locks
            → T.legal (place_of self.now.row k) (seen self.now k) }
        ensures known_callers { (k : ℕ) → k < length self.now.row.locks
            → CallersBelow self.now.row.callers (seen self.now k) }
    {
        self.caller
    }

    /// How many locks the row has.
    pub fn count(&self) -> u64
        ensures count { result ≡ length self.now.row.locks }
        ensures lists { length self.now.lists ≡ length self.now.row.locks }
    {
        self.passes.len() as u64
    }

    /// The passes, in the order of the locks.
    pub(crate) fn into_passes(self) -> Vec<Pass<T>>
        ensures row { AreOfRow T.legal self.row self.caller result.items }
        ensures seen { (k : ℕ) (p : PassModel T.Call T.Answer) → slice_get result.items k ≡ Some p
            → p.seen ≡ seen self k }
    {
        let RowPasses {
            passes,
            caller: _,
            row: _,
        } = self;
        passes
    }
}

//! The passes of one lock.
ghost use Rattle.std.specs.Prelude.{◌≡◌, slice_index_or, slice_set, ◌<◌, None, Some, IfSome};
ghost use Rattle.ch_turn.specs.PassModels.{IsPassOf};

use crate::lock::TurnLock;
use crate::pass::Pass;
use ch_base::Served;
use std::marker::Model;
use std::snapshot::Snapshot;

/// A pass for each caller number. Contracts see the lock, and which passes are there.
#[derive(Drop)]
pub struct PassList<T: Served> {
    pub(crate) passes: Vec<Option<Pass<T>>>,
    pub(crate) lock: Snapshot<TurnLock<T>>,
}

impl<T: Served> Model for PassList<T> {
    ghost use Rattle.std.specs.Prelude.{◌≡◌, length};
    ghost use Rattle.ch_turn.specs.PassModels.{PassListModel, AllInPlace};

    ghost Value = { PassListModel T.Call T.Answer };

    ghost view = { λ l. record { lock = l.lock.value; slots = l.passes.items } };

    ghost invariant = { λ l. (length l.passes.items ≡ l.lock.value.callers)
        × AllInPlace T.legal l.lock.value l.passes.items };
}

impl<T: Served> PassList<T> {
    /// None where there is no pass of this number, or it was taken and not given back.
    pub fn take(&mut self, i: u64) -> Option<Pass<T>>
        ensures taken { result ≡ slice_index_or self.old.slots i None }
        ensures rest { self.new ≡ record self.old { slots = slice_set self.old.slots i None } }
        ensures own { IfSome result (IsPassOf T.legal self.old.lock i) }
    {
        if i < self.passes.len() as u64 {
            self.passes[i as usize].take()
        } else {
            None
        }
    }

    /// Puts a pass back at its number.
    pub fn give(&mut self, pass: Pass<T>)
        requires own { pass.lock ≡ self.old.lock }
        requires empty { slice_index_or self.old.slots pass.caller None ≡ None }
        ensures { self.new ≡ record self.old { slots = slice_set self.old.slots pass.caller (Some pass) } }
    {
        let i = pass.caller as usize;
        drop(self.passes[i].replace(pass));
    }
}

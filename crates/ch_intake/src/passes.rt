//! The passes of one intake.
ghost use Rattle.std.specs.Prelude.{◌≡◌, slice_index_or, slice_set, None, IfSome};
ghost use Rattle.ch_intake.specs.PassModels.{IsPassAt};

use crate::intake::Intake;
use crate::pass::IntakePass;
use std::marker::Model;
use std::snapshot::Snapshot;

/// A pass for each caller number. Contracts see the intake, and which passes are there.
#[derive(Drop)]
pub struct IntakePasses<C: Drop> {
    pub(crate) passes: Vec<Option<IntakePass<C>>>,
    pub(crate) intake: Snapshot<Intake<C>>,
}

impl<C: Drop> Model for IntakePasses<C> {
    ghost use Rattle.ch_intake.specs.PassModels.{PassListModel, AllInPlace};

    ghost Value = { PassListModel C };

    ghost view = { λ l. record { intake = l.intake.value; slots = l.passes.items } };

    ghost invariant = { λ l. AllInPlace l.intake.value l.passes.items };
}

impl<C: Drop> IntakePasses<C> {
    /// None where there is no pass of this number, or it was taken.
    pub fn take(&mut self, i: u64) -> Option<IntakePass<C>>
        ensures taken { result ≡ slice_index_or self.old.slots i None }
        ensures rest { self.new ≡ record self.old { slots = slice_set self.old.slots i None } }
        ensures own { IfSome result (IsPassAt self.old.intake i) }
    {
        if i < self.passes.len() as u64 {
            self.passes[i as usize].take()
        } else {
            None
        }
    }
}

//! What a caller pushes and pops with.
ghost use Rattle.std.specs.Prelude.{◌≡◌, ◌<◌};
ghost use Rattle.ch_base.specs.declared.limits.TheConstants.{MAX_CALLERS};
ghost use Rattle.ch_intake.specs.Orders.{IsLegal};

use crate::rule::QueuePass;
use std::marker::Model;

/// The right to push and to pop as one caller, with the steps that the caller has seen.
///
/// Contracts see the intake, the caller number and these steps.
#[derive(Drop)]
pub struct IntakePass<C: Drop> {
    pub(crate) pass: QueuePass<C>,
    pub(crate) caller: u64,
}

impl<C: Drop> Model for IntakePass<C> {
    ghost use Rattle.ch_intake.specs.PassModels.{PassModel};
    ghost use Rattle.ch_intake.specs.PassViews.{steps_seen, IsCallersPass};

    ghost Value = { PassModel C };

    ghost view = { λ p. record {
      intake = p.pass.table_id;
      caller = p.caller;
      seen = steps_seen p.pass;
    } };

    ghost invariant = { λ p. IsCallersPass p.pass p.caller };
}

impl<C: Drop> IntakePass<C> {
    /// The caller number. What a pass has seen is legal.
    pub fn caller(&self) -> u64
        ensures caller { result ≡ self.now.caller }
        ensures below { result < MAX_CALLERS }
        ensures legal { IsLegal self.now.seen }
    {
        self.caller
    }
}

//! The intake.
ghost use Rattle.std.specs.Prelude.{◌≡◌, ℕ, ◌<◌, ◌≤◌, length, slice_index_or, None, Some, IfOk, IfErr, OnOk, IfSome, IfNone};
ghost use Rattle.ch_base.specs.declared.limits.TheConstants.{MAX_CALLERS};
ghost use Rattle.ch_intake.specs.declared.limits.TheConstants.{PLACES};
ghost use Rattle.ch_intake.specs.Orders.{IsLegal, GrowsBy, HeldOnce};
ghost use Rattle.ch_intake.specs.PassModels.{fresh_pass};
ghost use Rattle.ch_intake.specs.declared.step.Step.TheVariants as step;

use crate::dealing::deal_passes;
use crate::limits::PLACES;
use crate::pass::IntakePass;
use crate::passes::IntakePasses;
use crate::rule::{Popping, Pushing, Queue};
use ch_base::Memory;
use std::alloc::Global;
use std::marker::Model;
use std::snapshot::Snapshot;
use std::sync::Wait;

/// A push found the intake full, and hands its item back.
#[derive(Debug, Drop)]
pub struct Full<C> {
    pub item: C,
}

/// A queue that threads share. Contracts see only which one it is: what it holds is said by the steps that its passes
/// have seen.
#[derive(Drop)]
pub struct Intake<C: Drop> {
    queue: Queue<C>,
}

impl<C: Drop> Model for Intake<C> {
    ghost use Rattle.std.specs.Prelude.{◌≡◌};
    ghost use Rattle.atomic_table.specs.Seated.{TableId};
    ghost use Rattle.crossbeam_queue.specs.Passes.{ruled_capacity};
    ghost use Rattle.ch_intake.specs.declared.limits.TheConstants.{PLACES};

    ghost Value = { TableId };

    ghost view = { λ i. i.queue.table.shared.table_id };

    ghost invariant = { λ i. ruled_capacity i.queue ≡ PLACES };
}

impl<C: Drop> Intake<C> {
    /// An empty queue of [`PLACES`] places, with a pass for each of the 1 to
    /// [`MAX_CALLERS`](ch_base::MAX_CALLERS) callers.
    pub fn new(alloc: Global, callers: u64) -> Result<(Intake<C>, IntakePasses<C>), Memory>
        requires callers { (1 ≤ callers) × (callers ≤ MAX_CALLERS) }
        ensures own { IfOk result (λ made. made.1.intake ≡ made.0) }
        ensures count { IfOk result (λ made. length made.1.slots ≡ callers) }
        ensures passes { IfOk result (λ made. (i : ℕ) → i < callers
            → slice_index_or made.1.slots i None ≡ Some (fresh_pass made.0 i)) }
    {
        let passes = Vec::with_capacity(alloc, callers as usize)?;
        let (queue, dealer) = Queue::<C>::ruled(alloc, PLACES)?;
        let passes = deal_passes(&queue, dealer, passes, callers);
        let intake = Intake { queue };
        let of = Snapshot::of(&intake);
        Ok((intake, IntakePasses { passes, intake: of }))
    }

    /// Adds the item at the back. It comes back only where the queue was full at a step of this call.
    ///
    /// It may wait for ever, and after some 2^62 pushes it does.
    pub fn push<R: Wait>(&self, rt: &R, pass: &mut IntakePass<C>, item: C) -> Result<(), Full<C>>
        requires own { pass.old.intake ≡ self.now }
        ensures same { pass.new ≡ record pass.old { seen = pass.new.seen } }
        ensures pushed { OnOk result (GrowsBy (step.Push pass.old.caller item)
            pass.old.seen pass.new.seen) }
        ensures legal { IsLegal pass.new.seen }
        ensures item { IfErr result (λ full. full.item ≡ item) }
        ensures full { IfErr result (λ full. (pass.new.seen ≡ pass.old.seen)
            × HeldOnce PLACES pass.old.caller pass.old.seen) }
    {
        let queue = &self.queue;
        match queue.push_as::<Pushing<C>, R>(rt, &mut pass.pass, item) {
            Ok(()) => Ok(()),
            Err(item) => Err(Full { item }),
        }
    }

    /// Takes the item at the front. There is none only where the queue was empty at a step of this call.
    ///
    /// It may wait for ever.
    pub fn pop<R: Wait>(&self, rt: &R, pass: &mut IntakePass<C>) -> Option<C>
        requires own { pass.old.intake ≡ self.now }
        ensures same { pass.new ≡ record pass.old { seen = pass.new.seen } }
        ensures popped { IfSome result (λ item. GrowsBy (step.Pop pass.old.caller item)
            pass.old.seen pass.new.seen) }
        ensures legal { IsLegal pass.new.seen }
        ensures none { IfNone result ((pass.new.seen ≡ pass.old.seen)
            × HeldOnce 0 pass.old.caller pass.old.seen) }
    {
        self.queue.pop_as::<Popping<C>, R>(rt, &mut pass.pass)
    }
}

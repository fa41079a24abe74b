//! The rule of an intake, and what each kind of call tells the pass that makes it.
ghost use Rattle.ch_intake.specs.PassViews.{Pushes, Pops, Meets, after_dealing, dealt_view};

use crate::step::Known;
use crossbeam_queue::protocol::{Lesson, Outcome, Protocol, Split};
use crossbeam_queue::{Pass, RuledArrayQueue};
use std::marker::PhantomData;

/// The rule: there is one order of all steps, which is legal and leaves what the queue holds. It begins with the steps
/// that each pass has seen, and has of each caller those alone that its pass has seen.
pub struct OneOrder<C> {
    of: PhantomData<C>,
}

impl<C> Protocol<C, Known<C>> for OneOrder<C> {
    ghost use Rattle.ch_intake.specs.QueueRule.{Kept};
    ghost use Rattle.ch_intake.specs.PassViews.{first_view};

    ghost holds = { Kept };

    ghost first = { first_view };
}

/// A push, or a look at a queue that is full.
pub(crate) struct Pushing<C> {
    of: PhantomData<C>,
}

impl<C> Outcome<C, Known<C>> for Pushing<C> {
    ghost then = { Pushes };
}

impl<C> Lesson<C, Known<C>> for Pushing<C> {
    ghost fact = { Meets };
}

/// A pop, or a look at a queue that is empty.
pub(crate) struct Popping<C> {
    of: PhantomData<C>,
}

impl<C> Outcome<C, Known<C>> for Popping<C> {
    ghost then = { Pops };
}

impl<C> Lesson<C, Known<C>> for Popping<C> {
    ghost fact = { Meets };
}

/// Gives the lowest caller number to a new pass.
pub(crate) struct Deal;

impl<C> Split<Known<C>> for Deal {
    ghost left = { after_dealing };

    ghost right = { dealt_view };
}

pub(crate) type Queue<C> = RuledArrayQueue<C, Known<C>, OneOrder<C>>;

/// What a caller steps on the queue with. It has no bytes.
pub(crate) type QueuePass<C> = Pass<C, Known<C>>;

//! The kinds of step on the table, and what each tells the seat that makes it.
ghost use Rattle.ch_turn.specs.StepEffects.{Draws, Looks, Commits, Advances, Merges};
ghost use Rattle.ch_turn.specs.Views.{after_dealing, dealt_view, telling_view, joint_view, spent_view};

use crate::table::{Slot, View};
use atomic_table::{Join, Play, Split};
use ch_base::Served;
use std::marker::PhantomData;

/// Draws a ticket: adds one to the ticket word.
pub(crate) struct Draw;

impl<T, C, A> Play<Slot<T, C, A>, View<C, A>> for Draw {
    ghost then = { Draws };
}

/// Reads which ticket is served. Where it is the seat's own, the seat takes the slot.
pub(crate) struct Look<T> {
    of: PhantomData<T>,
}

impl<T: Served> Play<Slot<T, T::Call, T::Answer>, View<T::Call, T::Answer>> for Look<T> {
    ghost then = { Looks T.place T.legal T.stands };
}

/// Enters the pending call in the history: adds one to the count word.
pub(crate) struct Commit;

impl<T, C, A> Play<Slot<T, C, A>, View<C, A>> for Commit {
    ghost then = { Commits };
}

/// Ends the seat's turn: adds one to the serving word, and gives the slot back.
pub(crate) struct Advance;

impl<T, C, A> Play<Slot<T, C, A>, View<C, A>> for Advance {
    ghost then = { Advances };
}

/// Makes one list of what the seat has seen and of what it was told.
pub(crate) struct Merge<T> {
    of: PhantomData<T>,
}

impl<T: Served> Play<Slot<T, T::Call, T::Answer>, View<T::Call, T::Answer>> for Merge<T> {
    ghost then = { Merges T.place T.legal T.stands };
}

/// Gives the lowest caller number to a new seat.
pub(crate) struct Deal;

impl<C, A> Split<View<C, A>> for Deal {
    ghost left = { after_dealing };

    ghost right = { dealt_view };
}

/// Makes a seat that has no caller number, and knows what this one has seen.
pub(crate) struct Tell;

impl<C, A> Split<View<C, A>> for Tell {
    ghost left = { λ v. v };

    ghost right = { telling_view };
}

/// Takes over another seat's caller numbers, and is told what it has seen.
pub(crate) struct TakeOver;

impl<C, A> Join<View<C, A>> for TakeOver {
    ghost both = { joint_view };

    ghost spent = { spent_view };
}

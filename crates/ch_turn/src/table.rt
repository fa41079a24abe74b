//! The table of a lock: what its words and its slot are, what each seat knows, and the rule that all steps keep.
use atomic_table::{Seat, Shared, Table, TableRule};
use ch_base::{Entry, Served};
use std::alloc::Global;
use std::collections::LinkedList;
use std::marker::PhantomData;
use std::snapshot::Snapshot;

/// The next ticket that will be drawn.
pub(crate) const TICKET: usize = 0;

/// The ticket that is served.
pub(crate) const SERVING: usize = 1;

/// The number of entries in the history.
pub(crate) const COUNT: usize = 2;

/// The one slot, where the value is between two calls.
pub(crate) const HOME: usize = 0;

/// Where a seat is in a call.
pub enum Stage {
    /// It makes no call.
    Idle,
    /// It has drawn this ticket.
    Waits(u64),
    /// Its ticket is served, and it has the slot.
    Holds(u64),
    /// The same, and the entry of its call is in the history.
    Recorded(u64),
}

/// What a seat knows. It exists in proofs alone: no value of it is made.
pub struct View<C, A> {
    /// The history as far as the seat has seen it.
    pub seen: LinkedList<Entry<C, A>>,
    /// The history as far as another seat has told it, until both are merged.
    pub told: LinkedList<Entry<C, A>>,
    /// The place of the value.
    pub place: (u64, u64),
    /// How many callers the lock has.
    pub callers: u64,
    /// Its caller numbers are those from `low` to below `high`.
    pub low: u64,
    pub high: u64,
    /// The caller numbers from here on came with what was told. Where nothing is to be merged, it is `high`.
    pub told_from: u64,
    /// How many tickets it has drawn.
    pub calls: u64,
    pub stage: Stage,
    /// Another seat has taken over its callers.
    pub spent: bool,
}

/// What lies in the slot.
#[derive(Drop)]
pub enum Slot<T, C, A> {
    Value(T),
    /// The value is with the seat that has the slot.
    Taken,
    /// The value is out, and this call with this answer is to be entered in the history. A step of the table sees
    /// what the stepping seat has in its slot, so it learns from here which entry it adds.
    Pending(Snapshot<C>, Snapshot<A>),
}

/// What the table is told when it is made.
#[derive(Drop)]
pub struct Opening<T> {
    pub callers: u64,
    pub value: Snapshot<T>,
}

/// The rule: tickets are served one at a time, and all lists begin one legal history, for which a value at home stands.
pub struct OneHistory<T> {
    of: PhantomData<T>,
}

impl<T: Served> TableRule<Slot<T, T::Call, T::Answer>, View<T::Call, T::Answer>, Opening<T>>
    for OneHistory<T> {
    ghost use Rattle.ch_turn.specs.LockRule.{Kept};
    ghost use Rattle.ch_turn.specs.Views.{first_view};

    ghost holds = { λ opening. Kept T.place T.legal T.stands (T.place opening.value.value) opening.callers };

    ghost first = { λ opening. first_view (T.place opening.value.value) opening.callers };
}

pub(crate) type LockTable<T> = Table<
    Slot<T, <T as Served>::Call, <T as Served>::Answer>,
    View<<T as Served>::Call, <T as Served>::Answer>,
    Opening<T>,
    OneHistory<T>,
    Global,
>;

/// The part of the table that all callers share.
pub(crate) type SharedTable<T> = Shared<
    Slot<T, <T as Served>::Call, <T as Served>::Answer>,
    View<<T as Served>::Call, <T as Served>::Answer>,
    Opening<T>,
    OneHistory<T>,
>;

/// What a caller steps on the table with. It has no bytes.
pub(crate) type LockSeat<T> = Seat<
    Slot<T, <T as Served>::Call, <T as Served>::Answer>,
    View<<T as Served>::Call, <T as Served>::Answer>,
>;

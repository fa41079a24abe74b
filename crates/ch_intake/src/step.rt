//! What is done to an intake, and what a pass knows of it. Both exist in proofs alone: no value of them is made.
use std::collections::LinkedList;

/// A step on the queue: which caller pushed or popped which item.
pub enum Step<C> {
    Push { caller: u64, item: C },
    Pop { caller: u64, item: C },
}

/// What a pass knows.
pub struct Known<C> {
    /// Its caller numbers are those from `low` to below `high`.
    pub low: u64,
    pub high: u64,
    /// The steps that it has seen, its own among them.
    pub seen: LinkedList<Step<C>>,
}

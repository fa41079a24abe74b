//! Tests of the lock, in one thread and in two.
#![tactic(auto)]

#[cfg(test)]
mod tally;

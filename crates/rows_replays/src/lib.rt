//! Tests of a replay whose source or sink fails at each of its calls in turn.
#![tactic(auto)]

#[cfg(test)]
mod faults;

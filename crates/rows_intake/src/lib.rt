//! Tests of the intake, in one thread and in two.
#![tactic(auto)]

#[cfg(test)]
mod queue;

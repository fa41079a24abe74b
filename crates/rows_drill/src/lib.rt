//! Tests of the drill: what it prints, and how it ends.
#![tactic(auto)]

#[cfg(test)]
mod drills;

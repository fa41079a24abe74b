//! Tests of soaks, over the libraries.
#![tactic(auto)]

#[cfg(test)]
mod soaks;

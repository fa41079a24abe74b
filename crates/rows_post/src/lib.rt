//! Tests of posts over links in memory.
#![tactic(auto)]

#[cfg(test)]
mod posts;

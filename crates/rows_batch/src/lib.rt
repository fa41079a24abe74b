//! Tests of webhook batches, over a post in memory and a bench of shards.
#![tactic(auto)]

#[cfg(test)]
mod batches;

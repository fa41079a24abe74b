//! Tests of one live socket, over a wire in memory and a bench of shards.
#![tactic(auto)]

#[cfg(test)]
mod live;

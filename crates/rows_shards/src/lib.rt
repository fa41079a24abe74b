//! Tests of the two shards, over the libraries: each call that takes memory is made once with ample
//! memory, and its answer is compared.
#![tactic(auto)]

#[cfg(test)]
mod chan_shard;
#[cfg(test)]
mod user_shard;

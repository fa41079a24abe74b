//! Tests of a worker's turns, over links in memory, at a bench of shards and at a house that two workers
//! share.
#![tactic(auto)]

#[cfg(test)]
mod noted;
#[cfg(test)]
mod workers;

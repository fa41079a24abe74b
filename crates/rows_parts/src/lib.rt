//! Tests of the parts of the shards, over the libraries: each call that takes memory is made once with ample
//! memory, and its answer is compared.
#![tactic(auto)]

#[cfg(test)]
mod cache;
#[cfg(test)]
mod hook_log;
#[cfg(test)]
mod outbox;
#[cfg(test)]
mod presence;
#[cfg(test)]
mod subs;
#[cfg(test)]
mod watches;

//! The definitions: what a shard's history means. `specs/` has them; docs/definitions.md has them
//! in words.
//!
//! A history is the list of a shard's entries (caller, call, answer), the oldest first. The
//! definitions are filters and folds over that list, and keep no table. The functions of this crate
//! have no body: their contracts are the laws of every legal history, and worked examples.
#![tactic(auto)]

mod examples;
mod laws;
mod limits;
mod rows;

pub use examples::{channel_examples_hold, name_examples_hold, user_examples_hold};
pub use laws::{
    cache_newcomers_are_told, held_channels_are_vacant, membership_alternates,
    occupancy_alternates, watchers_are_told,
};
pub use limits::{
    CACHED_FOR, FNV_OFFSET, FNV_PRIME, HELD_FOR, LONGEST_TAIL, MAX_NAME, MAX_USER_ID, MAX_USERS,
};
pub use rows::{Cached, Delivery, HeldNotice, Subscription, UserSocket};

//! Which sockets are subscribed to which channels, in the order in which they joined.
//!
//! Contracts see [`Subs`] as the list of the open subscriptions, the oldest first, in which no socket is on
//! a channel twice, and say each call by the definitions of `ch_history`. Only `join` takes memory.
#![tactic(auto)]

mod joined_as;
mod rows;
mod subs;

pub use ch_history::Subscription;
pub use ch_index::{Holder, Holders};
pub use joined_as::JoinedAs;
pub use subs::{SubWalk, Subs};

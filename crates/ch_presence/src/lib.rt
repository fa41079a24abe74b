//! Which users are on which presence channels: the members of the open subscriptions, in the order in which
//! they joined.
//!
//! Contracts see a [`Presence`] as the list of its rows, the oldest first, and say each call by
//! `members_on`, `ids_on` and `rows_on`: a user is there once, however many of its sockets are, with the info
//! of its oldest subscription. Only `join` takes memory.
#![tactic(auto)]

mod laws;
mod presence;
mod present;
mod rows;
mod users;

pub use laws::{rows_follow_subscriptions, users_are_of_subscriptions};
pub use presence::Presence;
pub use present::Present;

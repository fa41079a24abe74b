//! The webhook events of a channel shard that were made since the last take, and the vacated notices that are held
//! back, with room that is reserved before they come.
//!
//! A notice that a channel is vacated is held for `HELD_FOR` milliseconds, so that a page that is loaded again makes
//! no pair of notices. Contracts see a [`HookLog`] as the events, the oldest first, the notices that are held, in the
//! order in which they came, and for how many more there is room. Only `reserve` takes memory.
#![tactic(auto)]

mod hook_log;

pub use hook_log::HookLog;

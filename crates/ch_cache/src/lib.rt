//! The latest event of each channel that events are cached for, until it ends.
//!
//! Contracts see a [`Cache`] by `latest_in`: what was last put for a channel, until `CACHED_FOR` milliseconds after
//! that, or nothing. Every call is handed the moment at which it is made. An event that ended takes its room until it
//! is swept, or until another is put for its channel.
#![tactic(auto)]

mod cache;
mod latest_event;

pub use cache::Cache;
pub use latest_event::LatestEvent;

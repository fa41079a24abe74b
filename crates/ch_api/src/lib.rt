//! Requests to the HTTP API of an app: which calls on shards a request asks for, and what it is answered (Pusher Channels
//! documentation, HTTP API; RFC 9112).
//!
//! [`plan`] gives exactly what is done with a request: it is refused, or its calls are to be made. [`finish`] gives exactly
//! the reply once they were made, and [`reply_bytes`] the bytes of a reply. The definitions are those of `ch_requests`.
#![tactic(auto)]

mod authorization;
mod cached;
mod counts;
mod event_asks;
mod events;
mod finishing;
mod json_texts;
mod lookups;
mod planning;
mod refusals;
mod reply_text;
mod rows;
mod told_counts;

pub use ch_requests::{Plan, Planned, Reply};
pub use finishing::finish;
pub use planning::plan;
pub use refusals::{REPLY_503, refusal, whole_refusal_holds};
pub use reply_text::reply_bytes;

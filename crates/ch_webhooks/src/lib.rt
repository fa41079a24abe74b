//! The definitions of webhook batches (Pusher Channels documentation, Webhooks): the text of each event, how a list of
//! events is parted into batches, a batch's body and signature, and what a cut makes of what waits.
//!
//! `specs/` has them; docs/definitions.md has them in words. The functions of this crate have no body: their contracts
//! are worked examples, and a law.
#![tactic(auto)]

mod batch;
mod examples;
mod limits;

pub use batch::{Batch, Sender, Waiting};
pub use examples::{bodies_hold, cuts_hold};
pub use limits::{BATCH_EVENTS, GREATEST_NUMBER};

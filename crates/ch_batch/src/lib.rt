//! Webhook batches (Pusher Channels documentation, Webhooks): the events that the channel shards make are
//! gathered, cut into batches of at most `BATCH_EVENTS`, signed, and posted one after another.
//!
//! Contracts see a [`Batcher`] as what waits: the events that were accepted and not cut yet, and the batches
//! that were made and neither sent nor given up, the lowest number first. A batch's body is made once, with the
//! moment of its cut, so each try posts the same bytes. [`Batcher::gather`] makes room before it takes events
//! from a shard, so none is lost. By [`each_event_is_in_one_batch`] and [`webhooks_alternate`], the events of all
//! batches are those of the shards' histories, each once, and `channel_occupied` and `channel_vacated` of a
//! channel alternate over all webhooks.
#![tactic(auto)]

mod batcher;
mod bodies;
mod events;
mod examples;
mod gathering;
mod laws;
mod limits;
mod making;
mod merging;
mod step;

pub use batcher::Batcher;
pub use ch_webhooks::{BATCH_EVENTS, Batch, GREATEST_NUMBER, Sender, Waiting};
pub use examples::tries_hold;
pub use laws::{each_event_is_in_one_batch, gathers_chain, webhooks_alternate};
pub use limits::{FIRST_DELAY, MOST_TRIES};
pub use step::Step;

//! The events that the body of a request triggers (Pusher Channels documentation, HTTP API, "POST event" and "POST
//! batch events").
//!
//! [`read_triggers`] gives exactly the events of a body, or none where the body has a fault. What a body tells is
//! defined in `ch_requests`, and by [`one_reading`] no body tells two things.
#![tactic(auto)]

mod batch;
mod channels;
mod content;
mod event;
mod laws;
mod names;
mod reading;

pub use ch_requests::{Trigger, TriggerList};
pub use laws::one_reading;
pub use reading::read_triggers;

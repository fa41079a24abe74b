//! The frames that wait for each caller since its last take, with room that is reserved before they come.
//!
//! Contracts see an [`Outbox`] as its rows, one for each owner, by `frames_of` and `spare_of`: the frames
//! that wait for an owner, and for how many more of them there is room. Only `reserve` and `reserve_for` take
//! memory of an outbox. What a call tells many sockets is made by [`hand_out`] before.
#![tactic(auto)]

mod deliveries;
mod handing;
mod outbox;
mod queue;

pub use handing::{delivery, hand_out};
pub use outbox::Outbox;

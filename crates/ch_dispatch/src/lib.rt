//! What a client's message does at the shards.
//!
//! A session hears a message and makes its asks at a [`Desk`](ch_desk::Desk), one after another up to the
//! first that refuses or ends the connection; [`hear`] and [`hear_binary`] answer what the socket is told of
//! it, a [`Response`]. [`lose`] makes the losses of a session whose connection has ended. No call takes
//! memory of its own, and each holds over any desk.
#![tactic(auto)]

mod asking;
mod hearing;
mod laws;
mod losing;
mod response;

pub use hearing::{hear, hear_binary};
pub use laws::answered_once;
pub use losing::lose;
pub use response::Response;

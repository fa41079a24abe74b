//! The protocol of one connection: what its definitions are about, and the definitions.
//!
//! A crate of definitions, with no body of the program. `specs/` says which texts are which client
//! messages, what the data of members and users are, which text each frame is printed as, which targets
//! open a connection, and what a session does with a message and with the answers to its asks (Pusher
//! Channels protocol, version 7).
#![tactic(auto)]

mod ask;
mod client_message;
mod examples;
mod heard;
mod limits;

pub use ask::{AnswerList, Ask, AskList, Made};
pub use client_message::{ClientMessage, UserData};
pub use examples::{examples_hold, session_examples_hold, target_examples_hold};
pub use heard::{Heard, Settled};
pub use limits::{
    LONGEST_BODY, LONGEST_CHANNEL_DATA, LONGEST_EVENT, LONGEST_TEXT, LONGEST_WATCHLIST,
    MAX_SUBSCRIPTIONS,
};

//! The texts of one connection, both ways (Pusher Channels protocol, version 7).
//!
//! [`print`] gives exactly the printed text of a frame. [`parse`] gives the message of a client's text,
//! or the code of its first fault; [`member_of`] and [`user_of`] give who joins and who signs in. The
//! definitions are those of `ch_base` and `ch_protocol`, and each text has one meaning by them.
#![tactic(auto)]

mod checks;
mod client_event;
mod ids;
mod laws;
mod member;
mod message;
mod printed_law;
mod refused;
mod shapes;
mod user;

pub use ch_print::print;
pub use ch_protocol::{ClientMessage, UserData};
pub use laws::{one_member, one_user, one_verdict};
pub use member::member_of;
pub use message::parse;
pub use printed_law::printed_tells_event;
pub use refused::{Refused, Unread};
pub use user::user_of;

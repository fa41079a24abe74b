//! The signatures of Pusher Channels: HMAC-SHA256 over the texts that are signed for a socket on a
//! channel, a user, an HTTP request and a webhook's body, and the MD5 of a request's body.
//!
//! Each signature is the lower-case hex of the HMAC of RFC 2104 over the whole text. Nothing here
//! but `Params::insert` takes memory.
#![tactic(auto)]

mod authorization;
mod digest;
mod hmac;
mod query;
mod signature;

pub use authorization::matches;
pub use digest::md5_hex;
pub use hmac::Mac;
pub use query::{Inserted, Param, Params};
pub use signature::{body_sig, request_sig, socket_sig, user_sig};

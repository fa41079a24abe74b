//! Which sockets are signed in as which users, and which watch whether a user is online.
//!
//! Contracts see [`Watches`] as two lists, the sign-ins and the watches that last, the oldest first, in
//! neither of which a socket has a user twice. Each call is said by the definitions of `ch_history`.
//! Only `sign_in` and `watch` take memory.
#![tactic(auto)]

mod rows;
mod user_rows;
mod watches;

pub use ch_index::{Holder, Holders};
pub use watches::Watches;

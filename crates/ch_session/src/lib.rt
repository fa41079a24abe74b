//! One session: what the messages of a connection ask of the shards, and what the answers mean for its
//! socket (Pusher Channels protocol).
//!
//! Contracts see a [`Session`] as what it keeps (`Kept` of `specs/`), and say by `IsSession` for which
//! settled asks it stands. `hear` gives exactly the judged answer to a text, `settle` exactly the outcome of
//! an ask, and `next_loss` goes through the shards that the session uses, each once.
#![tactic(auto)]

mod account;
mod authorization;
mod hearing;
mod judged;
mod judging;
mod reading;
mod session;
mod settling;
mod shard_row;
mod signing_in;
mod start_fault;
mod target;
mod waiting;

pub use session::Session;
pub use start_fault::StartFault;

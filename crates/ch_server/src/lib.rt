//! The server over the system's sockets: from the words of its command line to the status that it ends with.
//!
//! [`start`] reads the configuration, listens at its address, says so in one line, and serves: the threads are those of
//! `ch_serve`, over the sockets, pollers and clocks of `ch_wswire` and the posts of `ch_post`.
#![tactic(auto)]

mod edge;
mod lines;
mod starting;

pub use edge::{Edge, Unopened, pollers, post_of};
pub use starting::start;

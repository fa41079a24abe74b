//! The drill: workers on threads, each with one connection of its own, at desks of one house of shards.
//!
//! A drill of so many workers and rounds is asked for by words ([`drill_of`]). Each worker has one connection
//! ([`arrivals_of`]), which makes its handshake, subscribes to a channel and unsubscribes from it for each round, and
//! hangs up. So the definitions say how many entries each shard's history has at the end, however the workers' calls
//! interleave (`specs/DrillCounts.antt`), and what is printed ([`drill_text`]).
//!
//! [`drill`] runs it: each worker takes its turns on a thread of its own, and then the house is closed. Only where its
//! counts are those of the definitions, and each worker took its turns and its connection, is the status 0.
#![tactic(auto)]

mod arrivals;
mod closing;
mod counts;
mod limits;
mod printing;
mod running;
mod seat;
mod words;
mod working;

pub use arrivals::arrivals_of;
pub use closing::is_closed_after;
pub use counts::{DrillCounts, drill_counts};
pub use limits::{MOST_ROUNDS, MOST_WORKERS};
pub use printing::{drill_text, usage_text};
pub use running::drill;
pub use words::{Drill, drill_of};

//! Transcripts: what their lines say, and what a replay of them writes.
//!
//! A crate of definitions, with no body of the program. `specs/` has them in the order in which they
//! build on one another: lines, commands, printing, the messages that commands stand for, the fold over a
//! transcript, and what a run of a replay has read and written by how it ended.
#![tactic(auto)]

mod commands;
mod ending;
mod examples;
mod limits;
mod start;

pub use commands::{Command, Line, Method};
pub use ending::Ending;
pub use examples::{examples_hold, round_examples_hold};
pub use limits::{LONGEST_LINE, MOST_OPENED};
pub use start::START_SECOND;

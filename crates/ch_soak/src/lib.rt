//! The soak: a large transcript that a seed makes, replayed, and its output summed up in one line.
//!
//! [`soak`] makes the transcript of its words (`specs/Generator.antt`) a line at a time, replays it with `replay` of
//! `ch_replay` under the built-in configuration, and writes how long the output is and its SHA-256. So one line tells
//! whether two runs, or two versions of the program, say the same.
#![tactic(auto)]

mod draws;
mod generator;
mod laws;
mod limits;
mod printing;
mod soaking;
mod source;
mod summing;
mod words;

pub use draws::{Action, Draws};
pub use laws::each_is_playable;
pub use limits::{FEWEST_LINES, MOST_LINES};
pub use soaking::soak;
pub use words::{Soak, soak_of};

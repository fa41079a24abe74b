//! The replay of a transcript, from the bytes that come in to the bytes that go out.
//!
//! The lines are judged one after another, and the output of a line is written before the next line is
//! read. The contract of [`replay`] says for each status what was read and what was written, by the
//! definition of a transcript's output in `ch_transcript`.
#![tactic(auto)]

mod fault_lines;
mod line_reader;
mod replaying;

pub use replaying::replay;

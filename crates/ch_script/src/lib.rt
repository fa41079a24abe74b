//! The lines of a transcript, read and written: what a line says, as a command, and the texts that it is answered
//! with besides frames and replies.
//!
//! [`read_line`] gives exactly what a line says by the definition `line_of` of `ch_transcript`, where each
//! form of a line has one short definition. [`join_text`] and [`sign_in_text`] are the messages that a `join` and a
//! `signin` stand for, rightly authorized; [`put_sent`] adds the line of the counts that answer a publish, and
//! [`put_tail`] the line of a shard's last calls. Each text is exactly that of the definitions.
#![tactic(auto)]

mod authorization;
mod commands;
mod joining;
mod lines;
mod parts;
mod requests;
mod sent_line;
mod signing_in;
mod tail_line;

pub use joining::join_text;
pub use lines::read_line;
pub use sent_line::put_sent;
pub use signing_in::sign_in_text;
pub use tail_line::put_tail;

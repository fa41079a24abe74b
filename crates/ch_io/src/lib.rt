//! The seam to the outside: sources and sinks of bytes and posts of webhooks, which count their
//! faults, and clocks.
//!
//! A source tells what is left in it, a sink what it holds and a post what it was handed, where that
//! can be known: over memory it can, over a file, a terminal or a socket it can't. What is promised of
//! the counts holds for all of them: no count falls, and a call fails only where its count rose.
#![tactic(auto)]

mod clock;
mod counts;
mod laws;
mod mem_clock;
mod mem_post;
mod mem_sink;
mod mem_source;
mod post;
mod readers;
mod schedule;
mod sink;
mod source;
mod writers;

pub use clock::Clock;
pub use counts::Counts;
pub use laws::{counts_add_up, known_lists_add_up};
pub use mem_clock::MemClock;
pub use mem_post::MemPost;
pub use mem_sink::MemSink;
pub use mem_source::MemSource;
pub use post::{Handed, Post, Posted};
pub use readers::ReaderSource;
pub use schedule::Schedule;
pub use sink::{Sink, WriteFailed, Wrote, write_all, write_last};
pub use source::{Got, Source};
pub use writers::WriterSink;

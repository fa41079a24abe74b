//! The soak's row: a transcript of 2,000 lines that a seed makes, whose output is summed up in one line.
//!
//! What is wanted of it stands beside this file: its arguments and the line.
#![tactic(auto)]

use ch_io::{ReaderSource, WriterSink};
use ch_program::program;
use std::process::ExitCode;
use std::{env, io};

fn main(rt: HostRuntime) -> ExitCode {
    let mut source = ReaderSource::new(rt.reader());
    let mut sink = WriterSink::new(io::writer(&rt));
    program(&rt, env::args(&rt), &mut source, &mut sink)
}

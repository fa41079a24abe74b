//! The rows of requests: a transcript of them under a configuration with several shards, which the program replays.
//!
//! What is wanted of it stands beside this file: its arguments, the configuration, the transcript and the output.
#![tactic(auto)]

use ch_io::{ReaderSource, WriterSink};
use ch_program::program;
use std::process::ExitCode;
use std::{env, io};

fn main(rt: HostRuntime) -> ExitCode {
    let mut source = ReaderSource::new(rt.reader());
    let mut sink = WriterSink::new(io::writer(&rt));
    program(&rt, env::args(&rt), &mut source, &mut sink)
}

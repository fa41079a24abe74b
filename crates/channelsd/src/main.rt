//! The program: `channelsd replay [config]` reads a transcript from standard input and writes its output.
//!
//! It hands the arguments, the two streams and the files to `program`, whose contract says what comes of them, and
//! ends with the status that `program` answers.
#![tactic(auto)]

use ch_io::{ReaderSource, WriterSink};
use ch_program::program;
use std::process::ExitCode;
use std::{env, io};

fn main(rt: HostRuntime) -> ExitCode {
    let mut source = ReaderSource::new(rt.reader());
    let mut sink = WriterSink::new(io::writer(&rt));
    program(&rt, env::args(&rt), &mut source, &mut sink)
}

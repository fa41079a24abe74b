//! How many calls per second a tally serves under a turn lock, with 1, 4, 16 and 63 callers, each in a thread of its own,
//! beside a mutex of std round the same value in the same run.
//!
//! `bench_turn <calls>` makes so many calls in all. With no number it only says how it is called.
#![tactic(auto)]

mod mutexes;
mod turns;

use std::env::{self, Env};
use std::io;
use std::time::{Duration, Instant};

/// The first word of the command line, where it is a number.
fn calls_asked<R: Env + Alloc>(rt: &R) -> io::Result<Option<u64>> {
    Ok(env::args(rt)?.nth(1).and_then(|word| word.parse().ok()))
}

/// Calls per second.
fn rate(calls: u64, took: Duration) -> u128 {
    u128::from(calls).saturating_mul(1_000_000) / took.as_micros().max(1)
}

fn main(rt: HostRuntime) -> io::Result<()> {
    let Some(calls) = calls_asked(&rt)? else {
        println!(rt; "usage: bench_turn <calls>")?;
        return Ok(());
    };
    for callers in [1, 4, 16, 63_u64] {
        let each = calls / callers;
        let start = Instant::now(&rt)?;
        if turns::run(&rt, rt.alloc(), callers, each).is_none() {
            return Err(io::Error::from(io::ErrorKind::OutOfMemory));
        }
        let turns = rate(calls, start.elapsed(&rt)?);
        let start = Instant::now(&rt)?;
        if mutexes::run(&rt, rt.alloc(), callers, each).is_none() {
            return Err(io::Error::from(io::ErrorKind::OutOfMemory));
        }
        let mutexes = rate(calls, start.elapsed(&rt)?);
        println!(rt; "{callers} callers: turn lock {turns}, mutex {mutexes} calls per second")?;
    }
    Ok(())
}

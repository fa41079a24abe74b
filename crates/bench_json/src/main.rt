//! How fast JSON texts are read: bytes per second on nested objects and on one long string, of about 64 KiB and 1 MiB,
//! and the time of a byte at the larger size over that at the smaller, in hundredths.
//!
//! `bench_json <times>` reads each text so many times. With no number it only says how it is called.
#![tactic(auto)]

use ch_json::read;
use std::alloc::{AllocError, Global};
use std::env::{self, Env};
use std::io;
use std::rt::Clock;
use std::time::{Duration, Instant};

const OBJECT: &str =
    ",{\"name\":\"value \\n x\",\"inner\":{\"list\":[1,2.5e3,true,{}],\"k\":null}}";

const LETTERS: &str = "abcdefghijklmnopqrstuvwxyz0123456789abcdefghijklmnopqrstuvwxyz01";

/// The first word of the command line, where it is a number.
fn times_asked<R: Env + Alloc>(rt: &R) -> io::Result<Option<u64>> {
    Ok(env::args(rt)?.nth(1).and_then(|word| word.parse().ok()))
}

/// A part so many times, with what stands before and behind it.
fn repeated(
    alloc: Global,
    before: &str,
    part: &str,
    behind: &str,
    times: u32,
) -> Result<String, AllocError> {
    let mut text = String::new(alloc);
    text.push_str(before)?;
    for _ in 0..times {
        text.push_str(part)?;
    }
    text.push_str(behind)?;
    Ok(text)
}

/// Bytes per second.
fn rate(bytes: usize, times: u64, took: Duration) -> u128 {
    let all = (bytes as u128).saturating_mul(u128::from(times));
    all.saturating_mul(1_000_000) / took.as_micros().max(1)
}

/// Reads a text so many times and says how fast. Answers the bytes per second.
fn measure(
    rt: &(impl Print + Clock),
    alloc: Global,
    name: &str,
    text: &str,
    times: u64,
) -> io::Result<u128> {
    let start = Instant::now(rt)?;
    for _ in 0..times {
        if read(alloc, text).is_err() {
            return Err(io::Error::from(io::ErrorKind::InvalidData));
        }
    }
    let speed = rate(text.len(), times, start.elapsed(rt)?);
    println!(rt; "{name}, {} bytes: {speed} bytes per second", text.len())?;
    Ok(speed)
}

fn main(rt: HostRuntime) -> io::Result<()> {
    let alloc = rt.alloc();
    let Some(times) = times_asked(&rt)? else {
        println!(rt; "usage: bench_json <times>")?;
        return Ok(());
    };
    for (name, before, part, behind) in [
        ("objects", "[0", OBJECT, "]"),
        ("string", "\"", LETTERS, "\""),
    ] {
        let small = repeated(alloc, before, part, behind, 1024)?;
        let large = repeated(alloc, before, part, behind, 16384)?;
        let at_small = measure(&rt, alloc, name, small.as_str(), times)?;
        let at_large = measure(&rt, alloc, name, large.as_str(), times)?;
        let growth = at_small.saturating_mul(100) / at_large.max(1);
        println!(rt; "{name}, time of a byte: {growth} hundredths")?;
    }
    Ok(())
}

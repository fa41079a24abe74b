//! How long an exchange takes whose request comes in pieces: a head of about 4,000 and 8,000 bytes byte by byte, and a body of
//! 512 KiB and 1 MiB in pieces of 4,096 bytes; and the time of a byte at the larger size over that at the smaller, in
//! hundredths.
//!
//! `bench_exchange <times>` takes each exchange so many times. With no number it only says how it is called.
#![tactic(auto)]

ghost use Rattle.ch_config.specs.Config.{IsConfig};
ghost use Rattle.ch_desk.specs.Bench.{view_of};
ghost use Rattle.ch_desk.specs.Views.{IsDeskOf};
ghost use Rattle.ch_exchange.specs.Turns.{IsUnfinished};

use ch_config::Config;
use ch_desk::Bench;
use ch_exchange::{ExTurn, Exchange};
use ch_net::{MemLink, OtherSide, Script};
use std::alloc::{AllocError, Global};
use std::env::{self, Env};
use std::io;
use std::rt::Clock;
use std::time::{Duration, Instant};

/// What stands before a value that makes a head long.
const LONG_HEAD: &str = "GET /apps/1/channels HTTP/1.1\r\nHost: localhost\r\nX-Filler: ";

/// What stands before a body of 512 KiB, and one of 1 MiB.
const SMALL_POST: &str =
    "POST /apps/1/events HTTP/1.1\r\nHost: localhost\r\nContent-Length: 524288\r\n\r\n";

const LARGE_POST: &str =
    "POST /apps/1/events HTTP/1.1\r\nHost: localhost\r\nContent-Length: 1048576\r\n\r\n";

/// The first word of the command line, where it is a number.
fn times_asked<R: Env + Alloc>(rt: &R) -> io::Result<Option<u64>> {
    Ok(env::args(rt)?.nth(1).and_then(|word| word.parse().ok()))
}

/// A request, and the size of the pieces in which it comes.
#[derive(Drop)]
struct Sample<'a> {
    name: &'a str,
    before: &'a str,
    filler: u64,
    behind: &'a str,
    piece: usize,
}

impl<'a> Sample<'a> {
    /// The bytes of the request.
    fn bytes(&self, alloc: Global) -> Result<Vec<u8>, AllocError> {
        let mut bytes = self.before.as_bytes().to_vec(alloc)?;
        for _byte in 0..self.filler {
            bytes.push(b'x')?;
        }
        bytes.extend_from_slice(self.behind.as_bytes())?;
        Ok(bytes)
    }

    /// A link that gives the request in its pieces.
    fn link(&self, alloc: Global, bytes: &[u8]) -> Result<MemLink, AllocError> {
        let mut pieces = Vec::new(alloc);
        for _piece in 0..bytes.len() / self.piece.max(1) {
            pieces.push(self.piece)?;
        }
        let script = Script::new(Vec::new(alloc), Vec::new(alloc));
        let bytes = bytes.to_vec(alloc)?;
        Ok(MemLink::new(alloc, bytes, pieces, OtherSide::HangsUp, script))
    }
}

/// Takes turns until the exchange ends, and answers whether it did in so many.
fn ends_in<R>(
    rt: &R,
    exchange: &mut Exchange<MemLink>,
    desk: &mut Bench,
    config: &Config,
    turns: u64,
) -> bool
    requires config { IsConfig config.now }
    requires desk { IsDeskOf config.now (view_of desk.old) }
    requires unfinished { IsUnfinished exchange.old.stage }
{
    for _turn in 0..turns {
        match exchange.turn(rt, desk, config, 0, 0) {
            ExTurn::Moved => {}
            ExTurn::Idle => {}
            turn => return turn == ExTurn::Done,
        }
    }
    false
}

/// Takes an exchange of these bytes, and answers how long its turns took.
fn time_of<R: Clock>(
    rt: &R,
    alloc: Global,
    config: &Config,
    sample: &Sample,
    bytes: &[u8],
) -> io::Result<Duration>
    requires { IsConfig config.now }
{
    let Ok(mut bench) = Bench::new(alloc, config.chan_shards, config.user_shards) else {
        return Err(io::Error::from(io::ErrorKind::OutOfMemory));
    };
    let mut exchange = Exchange::new(alloc, sample.link(alloc, bytes)?, 0);
    let start = Instant::now(rt)?;
    if !ends_in(rt, &mut exchange, &mut bench, config, bytes.len() as u64) {
        return Err(io::Error::from(io::ErrorKind::InvalidData));
    }
    start.elapsed(rt)
}

/// Takes an exchange so many times and says how long it takes. Answers nanoseconds of a byte.
fn measure<R: Print + Clock>(
    rt: &R,
    alloc: Global,
    config: &Config,
    sample: &Sample,
    times: u64,
) -> io::Result<u128>
    requires { IsConfig config.now }
{
    let bytes = sample.bytes(alloc)?;
    let mut all = 0_u128;
    for _time in 0..times {
        let took = time_of(rt, alloc, config, sample, &bytes)?;
        all = all.saturating_add(took.as_nanos());
    }
    let each = all / u128::from(times.max(1));
    let micros = each / 1_000;
    println!(rt;
        "{}, {} bytes by {}: {micros} us",
        sample.name,
        bytes.len(),
        sample.piece
    )?;
    Ok(each / (bytes.len() as u128).max(1))
}

/// Measures two sizes of a request, and says how much longer a byte of the larger takes.
fn compare<R: Print + Clock>(
    rt: &R,
    alloc: Global,
    config: &Config,
    samples: &[Sample; 2],
    times: u64,
) -> io::Result<()>
    requires { IsConfig config.now }
{
    let [small, large] = samples;
    let at_small = measure(rt, alloc, config, small, times)?;
    let at_large = measure(rt, alloc, config, large, times)?;
    let growth = at_large.saturating_mul(100) / at_small.max(1);
    println!(rt; "{}, time of a byte: {growth} hundredths", small.name)
}

/// A GET with a long head, byte by byte.
fn head(filler: u64) -> Sample<'static> {
    Sample {
        name: "head",
        before: LONG_HEAD,
        filler,
        behind: "\r\n\r\n",
        piece: 1,
    }
}

/// A POST with a long body, in pieces of 4,096 bytes.
fn body(before: &'static str, filler: u64) -> Sample<'static> {
    Sample {
        name: "body",
        before,
        filler,
        behind: "",
        piece: 4_096,
    }
}

fn main(rt: HostRuntime) -> io::Result<()> {
    let alloc = rt.alloc();
    let Some(times) = times_asked(&rt)? else {
        println!(rt; "usage: bench_exchange <times>")?;
        return Ok(());
    };
    let Ok(config) = Config::built_in(alloc) else {
        return Err(io::Error::from(io::ErrorKind::OutOfMemory));
    };
    compare(&rt, alloc, &config, &[head(3_938), head(7_938)], times)?;
    compare(
        &rt,
        alloc,
        &config,
        &[body(SMALL_POST, 524_288), body(LARGE_POST, 1_048_576)],
        times,
    )
}

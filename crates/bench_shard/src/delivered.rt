//! What a delivery takes: a publish to 1,000 sockets, and taking their frames. All sockets share the text of a frame;
//! beside that, in the same run, each socket has a frame of its own.
ghost use Rattle.ch_history.specs.WellFormed.{IsWellFormed};

use crate::filled::{ROOM, filled};
use crate::serving::{serve, take};
use crate::{calls, memory};
use ch_base::{ChanCall, Frame, FrameFor, Memory, Text};
use ch_shard::ChanShard;
use std::alloc::Global;
use std::io;
use std::rt::{Clock, Files};
use std::time::Instant;

/// How many frames each socket gets before they are taken.
const PUBLISHES: u64 = 50;

/// Nanoseconds until one delivery waits, nanoseconds to take it, and bytes while it waits.
#[derive(Clone, Copy)]
struct Costs {
    put: u128,
    taken: u128,
    bytes: u64,
}

/// Measures both, and says what a delivery takes. The frames of their own are kept until the others are measured, so that no
/// memory is used twice.
pub fn measure<R: Print + Clock + Files + AllocGlobal>(rt: &R, alloc: Global) -> io::Result<()> {
    let before = memory::resident(rt)?;
    let start = Instant::now(rt)?;
    let Ok(frames) = own_frames(alloc) else {
        return Err(no_memory());
    };
    let put = start.elapsed(rt)?.as_nanos();
    let bytes = memory::resident(rt)?.saturating_sub(before);
    let shared = measure_shared(rt, alloc)?;
    let taken = time_drop(rt, frames)?;
    say(rt, shared, each(put, taken, bytes))
}

fn say<R: Print>(rt: &R, shared: Costs, own: Costs) -> io::Result<()> {
    println!(rt;
        "a delivery with one text for all: {} ns to publish, {} ns to take, {} bytes",
        shared.put, shared.taken, shared.bytes
    )?;
    println!(rt;
        "a frame for each, without the rest of a publish: {} ns to make, {} ns to drop, {} bytes",
        own.put, own.taken, own.bytes
    )
}

fn no_memory() -> io::Error {
    io::Error::from(io::ErrorKind::OutOfMemory)
}

/// What one delivery takes, from nanoseconds and bytes of them all.
fn each(put: u128, taken: u128, bytes: u64) -> Costs {
    let deliveries = PUBLISHES * ROOM;
    Costs {
        put: put / u128::from(deliveries),
        taken: taken / u128::from(deliveries),
        bytes: bytes / deliveries,
    }
}

/// Deliveries of a shard.
fn measure_shared<R: Clock + Files + AllocGlobal>(rt: &R, alloc: Global) -> io::Result<Costs> {
    match filled(alloc, ROOM) {
        Ok(mut shard) => time_deliveries(rt, alloc, &mut shard),
        Err(_) => Err(no_memory()),
    }
}

fn time_deliveries<R: Clock + Files + AllocGlobal>(
    rt: &R,
    alloc: Global,
    shard: &mut ChanShard,
) -> io::Result<Costs> {
    let before = memory::resident(rt)?;
    let published = time_publishes(rt, alloc, shard)?;
    let bytes = memory::resident(rt)?.saturating_sub(before);
    let taken = time_take(rt, shard)?;
    Ok(each(published, taken, bytes))
}

fn time_publishes<R: Clock>(rt: &R, alloc: Global, shard: &mut ChanShard) -> io::Result<u128> {
    let start = Instant::now(rt)?;
    if publish(alloc, shard).is_err() {
        return Err(no_memory());
    }
    Ok(start.elapsed(rt)?.as_nanos())
}

fn publish(alloc: Global, shard: &mut ChanShard) -> Result<(), Memory> {
    let call = calls::publish(alloc, "room")?;
    publish_often(shard, &call)
}

fn publish_often(shard: &mut ChanShard, call: &ChanCall) -> Result<(), Memory>
    requires { IsWellFormed call.now }
{
    for _time in 0..PUBLISHES {
        serve(shard, call)?;
    }
    Ok(())
}

fn time_take<R: Clock>(rt: &R, shard: &mut ChanShard) -> io::Result<u128> {
    let start = Instant::now(rt)?;
    if take(shard).is_err() {
        return Err(no_memory());
    }
    Ok(start.elapsed(rt)?.as_nanos())
}

fn time_drop<R: Clock>(rt: &R, frames: Vec<FrameFor>) -> io::Result<u128> {
    let start = Instant::now(rt)?;
    drop(frames);
    Ok(start.elapsed(rt)?.as_nanos())
}

/// The frames of so many publishes, one for each socket.
fn own_frames(alloc: Global) -> Result<Vec<FrameFor>, Memory> {
    let mut frames = Vec::new(alloc);
    for _time in 0..PUBLISHES {
        for socket in 0..ROOM {
            let frame = event_frame(alloc)?;
            frames.push(FrameFor { socket, frame })?;
        }
    }
    Ok(frames)
}

/// The event of `calls::publish`.
fn event_frame(alloc: Global) -> Result<Frame, Memory> {
    Ok(Frame::Event {
        channel: Text::of(alloc, "room")?,
        event: Text::of(alloc, "e")?,
        body: Text::of(alloc, "\"x\"")?,
        user_id: None,
    })
}

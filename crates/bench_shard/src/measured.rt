//! What the calls take.
use crate::filled::{MOST, filled};
use crate::serving::serve;
use crate::{calls, memory};
use ch_base::{ChanCall, Memory};
use ch_shard::ChanShard;
use std::alloc::Global;
use std::io;
use std::rt::{Clock, Files};
use std::time::Instant;

/// How often each call is made.
const TIMES: u64 = 1_000;

/// How often the publish is made.
const PUBLISHES: u64 = 50;

/// Nanoseconds of each call.
#[derive(Clone, Copy)]
pub struct Costs {
    pub publish: u128,
    pub join: u128,
    pub leave: u128,
    pub loss: u128,
}

/// Measures the calls on a shard with so many subscriptions, and says what they take.
pub fn measure<R: Print + Clock + Files + AllocGlobal>(
    rt: &R,
    alloc: Global,
    subscriptions: u64,
) -> io::Result<Costs> {
    let subscriptions = subscriptions.min(MOST);
    let before = memory::resident(rt)?;
    match filled(alloc, subscriptions) {
        Ok(mut shard) => {
            let taken = memory::resident(rt)?.saturating_sub(before);
            let each = taken / subscriptions.max(1);
            println!(rt; "{subscriptions} subscriptions, {each} bytes each")?;
            time_calls(rt, alloc, &mut shard)
        }
        Err(_) => Err(no_memory()),
    }
}

fn time_calls<R: Print + Clock>(rt: &R, alloc: Global, shard: &mut ChanShard) -> io::Result<Costs> {
    let costs = Costs {
        publish: time_publish(rt, alloc, shard)?,
        join: time_join(rt, alloc, shard)?,
        leave: time_leave(rt, alloc, shard)?,
        loss: time_loss(rt, alloc, shard)?,
    };
    println!(rt;
        "publish to 1000 {} ns, join {} ns, leave {} ns, loss {} ns",
        costs.publish, costs.join, costs.leave, costs.loss
    )?;
    Ok(costs)
}

fn no_memory() -> io::Error {
    io::Error::from(io::ErrorKind::OutOfMemory)
}

fn time_publish<R: Clock>(rt: &R, alloc: Global, shard: &mut ChanShard) -> io::Result<u128> {
    let start = Instant::now(rt)?;
    for _time in 0..PUBLISHES {
        if publish_and_take(alloc, shard).is_err() {
            return Err(no_memory());
        }
    }
    Ok(start.elapsed(rt)?.as_nanos() / u128::from(PUBLISHES))
}

fn publish_and_take(alloc: Global, shard: &mut ChanShard) -> Result<(), Memory> {
    let call = calls::publish(alloc, "room")?;
    serve(shard, &call)?;
    serve(shard, &ChanCall::Take)?;
    Ok(())
}

fn time_join<R: Clock>(rt: &R, alloc: Global, shard: &mut ChanShard) -> io::Result<u128> {
    let start = Instant::now(rt)?;
    for time in 0..TIMES {
        if join(alloc, shard, time).is_err() {
            return Err(no_memory());
        }
    }
    Ok(start.elapsed(rt)?.as_nanos() / u128::from(TIMES))
}

/// Subscribes a socket above all that fill the shard to `hall`.
fn join(alloc: Global, shard: &mut ChanShard, time: u64) -> Result<(), Memory> {
    let call = calls::join(alloc, MOST + 1 + time % TIMES, "hall")?;
    serve(shard, &call)?;
    Ok(())
}

fn time_leave<R: Clock>(rt: &R, alloc: Global, shard: &mut ChanShard) -> io::Result<u128> {
    let start = Instant::now(rt)?;
    for time in 0..TIMES {
        if leave(alloc, shard, time).is_err() {
            return Err(no_memory());
        }
    }
    Ok(start.elapsed(rt)?.as_nanos() / u128::from(TIMES))
}

/// Ends the subscription that `join` made.
fn leave(alloc: Global, shard: &mut ChanShard, time: u64) -> Result<(), Memory> {
    let call = calls::leave(alloc, MOST + 1 + time % TIMES, "hall")?;
    serve(shard, &call)?;
    Ok(())
}

fn time_loss<R: Clock>(rt: &R, alloc: Global, shard: &mut ChanShard) -> io::Result<u128> {
    for time in 0..TIMES {
        if join(alloc, shard, time).is_err() {
            return Err(no_memory());
        }
    }
    let start = Instant::now(rt)?;
    for time in 0..TIMES {
        if lose(shard, time).is_err() {
            return Err(no_memory());
        }
    }
    Ok(start.elapsed(rt)?.as_nanos() / u128::from(TIMES))
}

/// Ends all subscriptions of the socket of `join`.
fn lose(shard: &mut ChanShard, time: u64) -> Result<(), Memory> {
    let call = ChanCall::Lost {
        socket: MOST + 1 + time % TIMES,
        at: 0,
    };
    serve(shard, &call)?;
    Ok(())
}

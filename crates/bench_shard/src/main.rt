//! What a call on a channel shard takes with 1,000 subscriptions, and with more: a publish to 1,000 of them, a join, a leave
//! and a loss. And the memory of a subscription, in bytes. Then what a delivery takes, with texts that sockets share and with
//! frames of their own.
//!
//! `bench_shard <subscriptions>` measures with 1,000 and with so many. With no number it only says how it is called.
#![tactic(auto)]

mod calls;
mod delivered;
mod filled;
mod measured;
mod memory;
mod serving;

use std::env::{self, Env};
use std::io;

/// The first word of the command line, where it is a number.
fn subscriptions_asked<R: Env + Alloc>(rt: &R) -> io::Result<Option<u64>> {
    Ok(env::args(rt)?.nth(1).and_then(|word| word.parse().ok()))
}

/// How much longer the second took than the first, in hundredths.
fn growth(first: u128, second: u128) -> u128 {
    second.saturating_mul(100) / first.max(1)
}

fn main(rt: HostRuntime) -> io::Result<()> {
    let Some(subscriptions) = subscriptions_asked(&rt)? else {
        println!(rt; "usage: bench_shard <subscriptions>")?;
        return Ok(());
    };
    let few = measured::measure(&rt, rt.alloc(), filled::ROOM)?;
    let many = measured::measure(&rt, rt.alloc(), subscriptions)?;
    println!(rt;
        "growth in hundredths: publish {}, join {}, leave {}, loss {}",
        growth(few.publish, many.publish),
        growth(few.join, many.join),
        growth(few.leave, many.leave),
        growth(few.loss, many.loss)
    )?;
    delivered::measure(&rt, rt.alloc())
}

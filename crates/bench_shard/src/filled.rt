//! A shard with so many subscriptions.
ghost use Rattle.std.specs.Prelude.{◌≡◌, ◌≤◌, false, IsTrue};
ghost use Rattle.ch_history.specs.ChannelName.{is_good_name, is_presence};
ghost use Rattle.ch_history.specs.Limits.{IsSocket};

use crate::calls;
use crate::serving::serve;
use ch_base::{ChanCall, Memory};
use ch_shard::ChanShard;
use std::alloc::Global;

/// The subscriptions of the channel `room`.
pub const ROOM: u64 = 1_000;

/// The most subscriptions that are measured.
pub const MOST: u64 = 10_000_000;

/// A shard with so many subscriptions, `MOST` at most, one for each socket from 1 on: 1,000 to `room`, and the others to
/// `hall`. The frames of each join are taken at once, as a worker does.
pub fn filled(alloc: Global, subscriptions: u64) -> Result<ChanShard, Memory> {
    let mut shard = ChanShard::new(alloc)?;
    fill(alloc, &mut shard, subscriptions.min(MOST))?;
    Ok(shard)
}

fn fill(alloc: Global, shard: &mut ChanShard, subscriptions: u64) -> Result<(), Memory>
    requires { subscriptions ≤ 10000000 }
{
    for socket in 1..subscriptions + 1 {
        if socket <= ROOM {
            subscribe(alloc, shard, socket, "room")?;
        } else {
            subscribe(alloc, shard, socket, "hall")?;
        }
    }
    serve(shard, &ChanCall::TakeHooks { at: 0 })
}

/// Subscribes a socket, and takes the frames.
fn subscribe(alloc: Global, shard: &mut ChanShard, socket: u64, channel: &str) -> Result<(), Memory>
    requires socket { IsSocket socket }
    requires name { IsTrue (is_good_name channel.now) }
    requires kind { is_presence channel.now ≡ false }
{
    let call = calls::join(alloc, socket, channel)?;
    serve(shard, &call)?;
    serve(shard, &ChanCall::Take)
}

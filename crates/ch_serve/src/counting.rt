//! Whether a closed house has an entry for each turn.
ghost use Rattle.std.specs.Prelude.{◌≡◌, ◌≤◌, ◌<◌, ◌+◌, ◌*◌, ◌^◌, length, IsTrue};
ghost use Rattle.ch_config.specs.Config.{IsConfig};
ghost use Rattle.ch_serve.specs.Served.{EachHas};

use ch_config::Config;
use ch_house::HouseClosed;

/// Whether each shard has an entry for each turn of each worker, and each channel shard one more for each round of the
/// webhook thread.
pub(crate) fn has_each_turn(closed: &HouseClosed, config: &Config, turns: u64) -> bool
    requires config { IsConfig config.now }
    requires turns { turns ≤ 2 ^ 48 }
    requires chans { length closed.now.chans ≡ config.now.chan_shards }
    requires users { length closed.now.users ≡ config.now.user_shards }
    ensures chans { IsTrue result → EachHas (config.now.workers * turns + turns) closed.now.chans }
    ensures users { IsTrue result → EachHas (config.now.workers * turns) closed.now.users }
{
    let of_workers = config.workers * turns;
    each_chan_has(closed, config.chan_shards, of_workers + turns)
        && each_user_has(closed, config.user_shards, of_workers)
}

/// Whether each of so many channel shards has at least so many entries.
fn each_chan_has(closed: &HouseClosed, shards: u64, entries: u64) -> bool
    requires { length closed.now.chans ≡ shards }
    ensures { IsTrue result → EachHas entries closed.now.chans }
{
    for shard in 0..shards {
        if closed.chan(shard).entries < entries {
            return false;
        }
    }
    true
}

/// Whether each of so many user shards has at least so many entries.
fn each_user_has(closed: &HouseClosed, shards: u64, entries: u64) -> bool
    requires { length closed.now.users ≡ shards }
    ensures { IsTrue result → EachHas entries closed.now.users }
{
    for shard in 0..shards {
        if closed.user(shard).entries < entries {
            return false;
        }
    }
    true
}

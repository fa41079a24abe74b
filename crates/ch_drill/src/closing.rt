//! Whether a closed house has the counts that the drill leaves.
ghost use Rattle.std.specs.Prelude.{◌≡◌, ◌↔◌, length, IsTrue};
ghost use Rattle.ch_drill.specs.DrillCloses.{all_closed, closed_after};

use crate::counts::DrillCounts;
use ch_house::{HouseClosed, ShardCount};

/// Whether the closed house, which has two shards of each kind, has just these entries, and nothing is left open.
pub fn is_closed_after(closed: &HouseClosed, counts: &DrillCounts) -> bool
    requires chans { length closed.now.chans ≡ 2 }
    requires users { length closed.now.users ≡ 2 }
    ensures { IsTrue result → closed.now ≡ closed_after counts.now }
{
    if !is_all_closed(closed.chan(0), counts.first_chan) {
        return false;
    }
    if !is_all_closed(closed.chan(1), counts.second_chan) {
        return false;
    }
    if !is_all_closed(closed.user(0), counts.each_user) {
        return false;
    }
    is_all_closed(closed.user(1), counts.each_user)
}

/// Whether a shard has so many entries, and nothing is left open.
fn is_all_closed(count: ShardCount, entries: u64) -> bool
    ensures { IsTrue result ↔ (count ≡ all_closed entries) }
{
    count.entries == entries && count.left == 0
}

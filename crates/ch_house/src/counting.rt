//! The counts of what was closed.
ghost use Rattle.std.specs.Prelude.{◌≡◌, ◌≤◌, ℕ, List, [], length, slice_get, Some, vec_capacity};
ghost use Rattle.ch_base.specs.declared.entry.Entry.{Entry};
ghost use Rattle.ch_turn.specs.declared.closing.Closed.{Closed};
ghost use Rattle.ch_house.specs.declared.counts.ShardCount.{ShardCount as count};

use crate::counts::ShardCount;
use crate::locks::ClosedList;
use ch_base::Served;
use ch_shard::ChanSeat;
use ch_ushard::UserSeat;

/// A shard that tells how many subscriptions or sign-ins are open on it.
pub(crate) trait Counted: Served {
    /// How many are open after a history.
    ghost left_after: { List (Entry Self.Call Self.Answer) → ℕ };

    /// How many are open.
    fn left(&self) -> u64
        ensures { (h : List (Entry Self.Call Self.Answer)) → Self.Served.stands self.now h → result ≡ left_after h };
}

impl Counted for ChanSeat {
    ghost use Rattle.ch_house.specs.Left.{open_subs};

    ghost left_after = { open_subs };

    fn left(&self) -> u64 {
        self.shard.open_subs()
    }
}

impl Counted for UserSeat {
    ghost use Rattle.ch_house.specs.Left.{lasting_signs};

    ghost left_after = { lasting_signs };

    fn left(&self) -> u64 {
        self.shard.open_signs()
    }
}

/// The counts of closed shards of a kind.
pub(crate) fn count_each<T: Counted>(
    closed: ClosedList<T>,
    mut room: Vec<ShardCount>,
) -> Vec<ShardCount>
    requires room { (room.items ≡ []) × (length closed ≤ vec_capacity room) }
    ensures count { length result.items ≡ length closed }
    ensures entries { (k : ℕ) (c : Closed T) (n : count)
        → slice_get closed k ≡ Some c → slice_get result.items k ≡ Some n → n.entries ≡ c.entries }
    ensures left { (k : ℕ) (c : Closed T) (n : count)
        → slice_get closed k ≡ Some c → slice_get result.items k ≡ Some n
        → (h : List (Entry T.Call T.Answer)) → T.Served.stands c.value h → n.left ≡ T.Counted.left_after h }
{
    for seat in closed.as_slice() {
        room.push_reserved(ShardCount {
            entries: seat.entries,
            left: seat.value.left(),
        });
    }
    room
}

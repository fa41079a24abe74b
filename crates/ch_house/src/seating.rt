//! The seats of a new house.
ghost use Rattle.std.specs.Prelude.{◌≡◌, [], length, map, All, IfOk};
ghost use Rattle.ch_house.specs.Houses.{AreAllPlaces};

use crate::locks::ValueList;
use ch_base::{Items, Memory};
use ch_desk::Shard;
use std::alloc::Global;

/// The shards 0 to n - 1 of a kind, on which no call was made.
pub(crate) fn fresh_seats<T: Shard>(alloc: Global, n: u64) -> Result<ValueList<T>, Memory>
    ensures count { IfOk result (λ seats. length seats ≡ n) }
    ensures places { IfOk result (λ seats. AreAllPlaces n (map T.Served.place seats)) }
    ensures empty { IfOk result (λ seats. All (λ s. T.Served.stands s []) seats) }
{
    let mut seats = Items::new(alloc);
    for k in 0..n {
        let seat = T::new(alloc, k, n)?;
        seats.push(seat)?;
    }
    Ok(seats)
}

//! A channel shard with its place, as a value that is served.
ghost use Rattle.std.specs.Prelude.{◌≡◌, [], IfOk};
ghost use Rattle.ch_shard.specs.Seats.{StandsAt};

use crate::shard::ChanShard;
use ch_base::{ChanAnswer, ChanCall, Memory, Served};
use std::alloc::Global;

/// The channel shard `k` of `n`. It serves well-formed calls that belong to it: whose channel has its place on it, or
/// that name none. A `Take` is sure to find memory, and no other call is.
#[derive(Drop)]
pub struct ChanSeat {
    pub shard: ChanShard,
    pub k: u64,
    pub n: u64,
}

impl ChanSeat {
    /// The shard `k` of `n`, on which no call was made.
    pub fn new(alloc: Global, k: u64, n: u64) -> Result<ChanSeat, Memory>
        ensures place { IfOk result (λ seat. (seat.k ≡ k) × (seat.n ≡ n)) }
        ensures empty { IfOk result (λ seat. StandsAt seat.shard (k, n) []) }
    {
        let shard = ChanShard::new(alloc)?;
        Ok(ChanSeat { shard, k, n })
    }

    /// The shard.
    pub fn shard(&self) -> &ChanShard
        ensures { result.now ≡ self.now.shard }
    {
        &self.shard
    }
}

impl Served for ChanSeat {
    ghost use Rattle.std.specs.Prelude.{◌≡◌};
    ghost use Rattle.ch_base.specs.declared.channel.ChanCall.TheVariants.{Take};
    ghost use Rattle.ch_history.specs.Placement.{IsLegalAt};
    ghost use Rattle.ch_shard.specs.Seats.{Fits, StandsAt};
    ghost use Rattle.ch_shard.specs.SeatLaws as laws;

    type Call = ChanCall;

    type Answer = ChanAnswer;

    ghost place = { λ seat. (seat.k, seat.n) };

    ghost fits = { Fits };

    ghost sure = { λ call. call ≡ Take };

    ghost legal = { IsLegalAt };

    ghost stands = { λ seat h. StandsAt seat.shard (seat.k, seat.n) h };

    fn serve(&mut self, caller: u64, call: &ChanCall) -> Result<ChanAnswer, Memory> {
        self.shard.apply(caller, call)
    }

    ghost stands_legal = { λ seat h stands. stands.1 };

    ghost legal_prefix = { laws.legal_prefix };

    ghost legal_fits = { laws.legal_fits };
}

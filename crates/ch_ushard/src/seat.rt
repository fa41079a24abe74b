//! A user shard with its place, as a value that is served.
ghost use Rattle.std.specs.Prelude.{◌≡◌, [], IfOk};
ghost use Rattle.ch_ushard.specs.Seats.{StandsAt};

use crate::shard::UserShard;
use ch_base::{Memory, Served, UserAnswer, UserCall};
use std::alloc::Global;

/// The user shard `k` of `n`. It serves well-formed calls that belong to it: whose user has its place on it, or that
/// name none. A `Take` is sure to find memory, and no other call is.
#[derive(Drop)]
pub struct UserSeat {
    pub shard: UserShard,
    pub k: u64,
    pub n: u64,
}

impl UserSeat {
    /// The shard `k` of `n`, on which no call was made.
    pub fn new(alloc: Global, k: u64, n: u64) -> Result<UserSeat, Memory>
        ensures place { IfOk result (λ seat. (seat.k ≡ k) × (seat.n ≡ n)) }
        ensures empty { IfOk result (λ seat. StandsAt seat.shard (k, n) []) }
    {
        let shard = UserShard::new(alloc)?;
        Ok(UserSeat { shard, k, n })
    }

    /// The shard.
    pub fn shard(&self) -> &UserShard
        ensures { result.now ≡ self.now.shard }
    {
        &self.shard
    }
}

impl Served for UserSeat {
    ghost use Rattle.std.specs.Prelude.{◌≡◌};
    ghost use Rattle.ch_base.specs.declared.user.UserCall.TheVariants.{Take};
    ghost use Rattle.ch_history.specs.Placement.{IsUserLegalAt};
    ghost use Rattle.ch_ushard.specs.Seats.{Fits, StandsAt};
    ghost use Rattle.ch_ushard.specs.SeatLaws as laws;

    type Call = UserCall;

    type Answer = UserAnswer;

    ghost place = { λ seat. (seat.k, seat.n) };

    ghost fits = { Fits };

    ghost sure = { λ call. call ≡ Take };

    ghost legal = { IsUserLegalAt };

    ghost stands = { λ seat h. StandsAt seat.shard (seat.k, seat.n) h };

    fn serve(&mut self, caller: u64, call: &UserCall) -> Result<UserAnswer, Memory> {
        self.shard.apply(caller, call)
    }

    ghost stands_legal = { λ seat h stands. stands.1 };

    ghost legal_prefix = { laws.legal_prefix };

    ghost legal_fits = { laws.legal_fits };
}

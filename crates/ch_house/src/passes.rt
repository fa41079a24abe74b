//! What a caller calls a house with.
ghost use Rattle.std.specs.Prelude.{◌≡◌, ◌<◌, ◌≤◌, ℕ, length};
ghost use Rattle.ch_base.specs.declared.limits.TheConstants.{MAX_CALLERS};
ghost use Rattle.ch_config.specs.declared.limits.TheConstants.{MAX_SHARDS};
ghost use Rattle.ch_history.specs.Placement.{IsLegalAt, IsUserLegalAt};
ghost use Rattle.ch_turn.specs.Callers.{CallersBelow};

use crate::row_passes::RowPasses;
use ch_shard::ChanSeat;
use ch_ushard::UserSeat;
use std::marker::Model;

/// A pass for each shard of a house, all of one caller. Contracts see the house, the caller number, and of each shard
/// the history as the caller knows it.
#[derive(Drop)]
pub struct Passes {
    pub(crate) chans: RowPasses<ChanSeat>,
    pub(crate) users: RowPasses<UserSeat>,
}

impl Model for Passes {
    ghost use Rattle.std.specs.Prelude.{◌≡◌};
    ghost use Rattle.ch_house.specs.Houses.{PassesModel, passes_of, IsPasses};

    ghost Value = { PassesModel };

    ghost view = { λ p. passes_of p.chans p.users };

    ghost invariant = { λ p. IsPasses (passes_of p.chans p.users) × (p.users.caller ≡ p.chans.caller) };
}

impl Passes {
    ghost use Rattle.ch_house.specs.Houses.{seen, seen_user};

    /// The caller number.
    pub fn caller(&self) -> u64
        ensures caller { result ≡ self.now.caller }
        ensures below { (result < self.now.house.chans.callers) × (result < MAX_CALLERS) }
    {
        self.chans.caller()
    }

    /// How many channel shards there are: 1 to `MAX_SHARDS`. What the caller knows of each is a legal history of calls
    /// belong to it, all of the house's callers.
    pub fn chan_shards(&self) -> u64
        ensures count { result ≡ length self.now.chans }
        ensures some { 1 ≤ result }
        ensures few { result ≤ MAX_SHARDS }
        ensures legal { (k : ℕ) → k < result → IsLegalAt (k, result) (seen self.now k) }
        ensures known_callers { (k : ℕ) → k < result
            → CallersBelow self.now.house.chans.callers (seen self.now k) }
    {
        self.chans.count()
    }

    /// How many user shards there are: 1 to `MAX_SHARDS`. What the caller knows of each is a legal history of calls that
    /// to it, all of the house's callers.
    pub fn user_shards(&self) -> u64
        ensures count { result ≡ length self.now.users }
        ensures some { 1 ≤ result }
        ensures few { result ≤ MAX_SHARDS }
        ensures legal { (k : ℕ) → k < result → IsUserLegalAt (k, result) (seen_user self.now k) }
        ensures known_callers { (k : ℕ) → k < result
            → CallersBelow self.now.house.chans.callers (seen_user self.now k) }
    {
        self.users.count()
    }
}

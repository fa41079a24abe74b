//! The house.
ghost use Rattle.std.specs.Prelude.{◌≡◌, ◌<◌, ◌≤◌, ℕ, length, slice_get, slice_index_or, slice_set, None, Some, IfOk, IsOk};
ghost use Rattle.ch_base.specs.Growth.{GrowsBy};
ghost use Rattle.ch_base.specs.declared.channel.ChanCall.TheVariants as chan_call;
ghost use Rattle.ch_base.specs.declared.limits.TheConstants.{MAX_CALLERS};
ghost use Rattle.ch_base.specs.declared.user.UserCall.TheVariants as user_call;
ghost use Rattle.ch_config.specs.declared.limits.TheConstants.{MAX_SHARDS};
ghost use Rattle.ch_history.specs.WellFormed.{IsWellFormed};
ghost use Rattle.ch_history.specs.UserLegal.{IsUserWellFormed};
ghost use Rattle.ch_history.specs.Placement.{BelongsTo, IsLegalAt, UserBelongsTo, IsUserLegalAt};
ghost use Rattle.ch_turn.specs.Callers.{CallersBelow};

use crate::counting::count_each;
use crate::counts::HouseClosed;
use crate::locks::Locks;
use crate::passes::Passes;
use crate::passes_list::PassesList;
use crate::seating::fresh_seats;
use ch_base::{ChanAnswer, ChanCall, Memory, UserAnswer, UserCall};
use ch_shard::ChanSeat;
use ch_ushard::UserSeat;
use std::alloc::Global;
use std::marker::Model;
use std::sync::Wait;

/// The shards of channels and of users, each under a lock of its own. Contracts see both rows of locks.
#[derive(Drop)]
pub struct House {
    chans: Locks<ChanSeat>,
    users: Locks<UserSeat>,
}

impl Model for House {
    ghost use Rattle.ch_house.specs.Houses.{HouseModel, IsHouse};

    ghost Value = { HouseModel };

    ghost view = { λ h. record { chans = h.chans; users = h.users } };

    ghost invariant = { λ h. IsHouse (record { chans = h.chans; users = h.users }) };
}

impl House {
    ghost use Rattle.ch_house.specs.declared.counts.ShardCount.{ShardCount as count};
    ghost use Rattle.ch_house.specs.Houses.{chan_count, user_count, seen, seen_user, fresh_passes, IsWhole};
    ghost use Rattle.ch_house.specs.Closes.{ChanClosed, UserClosed};

    /// A house with so many shards of each kind, on which no call was made, and passes for so many callers.
    pub fn new(
        alloc: Global,
        chans: u64,
        users: u64,
        callers: u64,
    ) -> Result<(House, PassesList), Memory>
        requires chans { (1 ≤ chans) × (chans ≤ MAX_SHARDS) }
        requires users { (1 ≤ users) × (users ≤ MAX_SHARDS) }
        requires callers { (1 ≤ callers) × (callers ≤ MAX_CALLERS) }
        ensures chans { IfOk result (λ made. chan_count made.0 ≡ chans) }
        ensures users { IfOk result (λ made. user_count made.0 ≡ users) }
        ensures callers { IfOk result (λ made. made.0.chans.callers ≡ callers) }
        ensures own { IfOk result (λ made. made.1.house ≡ made.0) }
        ensures count { IfOk result (λ made. length made.1.slots ≡ callers) }
        ensures passes { IfOk result (λ made. (i : ℕ) → i < callers
            → slice_index_or made.1.slots i None ≡ Some (fresh_passes made.0 i)) }
    {
        let chan_room = Vec::with_capacity(alloc, chans as usize)?;
        let user_room = Vec::with_capacity(alloc, users as usize)?;
        let (chans, chan_passes) = Locks::new(alloc, fresh_seats(alloc, chans)?, callers)?;
        let (users, user_passes) = Locks::new(alloc, fresh_seats(alloc, users)?, callers)?;
        let passes = PassesList {
            chans: chan_passes,
            users: user_passes,
            chan_room,
            user_room,
        };
        Ok((House { chans, users }, passes))
    }

    /// Serves a call on a channel shard when its turn comes. It may wait for ever. A Take needs no memory.
    pub(crate) fn chan<R: Wait>(
        &self,
        rt: &R,
        passes: &mut Passes,
        shard: u64,
        call: &ChanCall,
    ) -> Result<ChanAnswer, Memory>
        requires own { passes.old.house ≡ self.now }
        requires shard { shard < length passes.old.chans }
        requires formed { IsWellFormed call.now }
        requires belongs { BelongsTo (shard, length passes.old.chans) call.now }
        ensures grows { GrowsBy passes.old.caller call.now result
            (seen passes.old shard) (seen passes.new shard) }
        ensures legal { IsLegalAt (shard, length passes.old.chans) (seen passes.new shard) }
        ensures known_callers { CallersBelow self.now.chans.callers (seen passes.new shard) }
        ensures same { passes.new ≡ record passes.old {
          chans = slice_set passes.old.chans shard (seen passes.new shard);
        } }
        ensures take { call.now ≡ chan_call.Take → IsOk result }
    {
        self.chans.call(rt, &mut passes.chans, shard, call)
    }

    /// Serves a call on a user shard when its turn comes. It may wait for ever. A Take needs no memory.
    pub(crate) fn user<R: Wait>(
        &self,
        rt: &R,
        passes: &mut Passes,
        shard: u64,
        call: &UserCall,
    ) -> Result<UserAnswer, Memory>
        requires own { passes.old.house ≡ self.now }
        requires shard { shard < length passes.old.users }
        requires formed { IsUserWellFormed call.now }
        requires belongs { UserBelongsTo (shard, length passes.old.users) call.now }
        ensures grows { GrowsBy passes.old.caller call.now result
            (seen_user passes.old shard) (seen_user passes.new shard) }
        ensures legal { IsUserLegalAt (shard, length passes.old.users) (seen_user passes.new shard) }
        ensures known_callers { CallersBelow self.now.chans.callers (seen_user passes.new shard) }
        ensures same { passes.new ≡ record passes.old {
          users = slice_set passes.old.users shard (seen_user passes.new shard);
        } }
        ensures take { call.now ≡ user_call.Take → IsOk result }
    {
        self.users.call(rt, &mut passes.users, shard, call)
    }

    /// The counts of each shard at the end, where no passes are out. Each shard has one legal history, which begins with
    /// the list of each caller, has no entry of that caller after it, and none of anyone else. It takes no memory.
    pub fn close(self, passes: PassesList) -> HouseClosed
        requires own { passes.house ≡ self }
        requires all { IsWhole passes }
        ensures count { (length result.chans ≡ chan_count self) × (length result.users ≡ user_count self) }
        ensures chans { (k : ℕ) (n : count) → slice_get result.chans k ≡ Some n
            → ChanClosed self passes.slots k n }
        ensures users { (k : ℕ) (n : count) → slice_get result.users k ≡ Some n
            → UserClosed self passes.slots k n }
    {
        let House { chans, users } = self;
        let PassesList {
            chans: chan_passes,
            users: user_passes,
            chan_room,
            user_room,
        } = passes;
        HouseClosed {
            chans: count_each(chans.close(chan_passes), chan_room),
            users: count_each(users.close(user_passes), user_room),
        }
    }
}

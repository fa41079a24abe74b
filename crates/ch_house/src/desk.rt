//! Where a caller of a house sits.
ghost use Rattle.std.specs.Prelude.{◌≡◌, ◌≢◌, ◌<◌, ℕ, length, IsOk};
ghost use Rattle.ch_base.specs.Growth.{GrowsBy};
ghost use Rattle.ch_base.specs.declared.channel.ChanCall.TheVariants as chan_call;
ghost use Rattle.ch_base.specs.declared.user.UserCall.TheVariants as user_call;
ghost use Rattle.ch_history.specs.WellFormed.{IsWellFormed};
ghost use Rattle.ch_history.specs.UserLegal.{IsUserWellFormed};
ghost use Rattle.ch_history.specs.Placement.{BelongsTo, IsLegalAt, UserBelongsTo, IsUserLegalAt};
ghost use Rattle.ch_turn.specs.Callers.{CallersBelow};

use crate::house::House;
use crate::passes::Passes;
use ch_base::{ChanAnswer, ChanCall, Memory, UserAnswer, UserCall};
use ch_desk::Desk;
use std::marker::Model;
use std::sync::Wait;

/// The desk of one caller of a house that it shares with other callers. Contracts see the caller's passes.
#[derive(Drop)]
pub struct HouseDesk<'a> {
    house: &'a House,
    passes: Passes,
}

impl<'a> Model for HouseDesk<'a> {
    ghost use Rattle.std.specs.Prelude.{◌≡◌};
    ghost use Rattle.ch_house.specs.Houses.{PassesModel};

    ghost Value = { PassesModel };

    ghost view = { λ d. d.passes };

    ghost invariant = { λ d. d.passes.house ≡ d.house.now };
}

impl<'a> HouseDesk<'a> {
    ghost use Rattle.ch_house.specs.Houses.{seen, seen_user};

    /// The desk of the caller that has these passes of the house.
    pub fn new(house: &'a House, passes: Passes) -> HouseDesk<'a>
        requires { passes.house ≡ house.now }
        ensures { result ≡ passes }
    {
        HouseDesk { house, passes }
    }

    /// The caller's passes, with what it has seen.
    pub fn into_passes(self) -> Passes
        ensures { result ≡ self.entry }
    {
        let HouseDesk { house: _, passes } = self;
        passes
    }

    /// Serves a call on a channel shard, to which it belongs, when its turn comes. It may wait for ever. A Take needs no
    /// memory.
    pub fn chan<R: Wait>(
        &mut self,
        rt: &R,
        shard: u64,
        call: &ChanCall,
    ) -> Result<ChanAnswer, Memory>
        requires shard { shard < length self.old.chans }
        requires formed { IsWellFormed call.now }
        requires belongs { BelongsTo (shard, length self.old.chans) call.now }
        ensures grows { GrowsBy self.old.caller call.now result
            (seen self.old shard) (seen self.new shard) }
        ensures legal { IsLegalAt (shard, length self.old.chans) (seen self.new shard) }
        ensures known_callers { CallersBelow self.old.house.chans.callers (seen self.new shard) }
        ensures elsewhere { (k : ℕ) → k ≢ shard → seen self.new k ≡ seen self.old k }
        ensures shards { length self.new.chans ≡ length self.old.chans }
        ensures same { self.new ≡ record self.old { chans = self.new.chans } }
        ensures take { call.now ≡ chan_call.Take → IsOk result }
    {
        self.house.chan(rt, &mut self.passes, shard, call)
    }

    /// Serves a call on a user shard, to which it belongs, when its turn comes. It may wait for ever. A Take needs no
    /// memory.
    pub fn user<R: Wait>(
        &mut self,
        rt: &R,
        shard: u64,
        call: &UserCall,
    ) -> Result<UserAnswer, Memory>
        requires shard { shard < length self.old.users }
        requires formed { IsUserWellFormed call.now }
        requires belongs { UserBelongsTo (shard, length self.old.users) call.now }
        ensures grows { GrowsBy self.old.caller call.now result
            (seen_user self.old shard) (seen_user self.new shard) }
        ensures legal { IsUserLegalAt (shard, length self.old.users) (seen_user self.new shard) }
        ensures known_callers { CallersBelow self.old.house.chans.callers (seen_user self.new shard) }
        ensures elsewhere { (k : ℕ) → k ≢ shard → seen_user self.new k ≡ seen_user self.old k }
        ensures shards { length self.new.users ≡ length self.old.users }
        ensures same { self.new ≡ record self.old { users = self.new.users } }
        ensures take { call.now ≡ user_call.Take → IsOk result }
    {
        self.house.user(rt, &mut self.passes, shard, call)
    }
}

impl<R: Wait> Desk<R> for HouseDesk<'_> {
    ghost use Rattle.ch_house.specs.DeskViews.{view_of};

    ghost view = { view_of };

    fn caller(&self) -> u64 {
        self.passes.caller()
    }

    fn chan_shards(&self) -> u64 {
        self.passes.chan_shards()
    }

    fn user_shards(&self) -> u64 {
        self.passes.user_shards()
    }

    fn chan(&mut self, rt: &R, shard: u64, call: &ChanCall) -> Result<ChanAnswer, Memory> {
        HouseDesk::chan(self, rt, shard, call)
    }

    fn user(&mut self, rt: &R, shard: u64, call: &UserCall) -> Result<UserAnswer, Memory> {
        HouseDesk::user(self, rt, shard, call)
    }
}

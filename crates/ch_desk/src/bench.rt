ghost use Rattle.std.specs.Prelude.{◌≡◌, ◌<◌, ◌≤◌, ℕ, [], length, IfOk};
ghost use Rattle.ch_config.specs.declared.limits.TheConstants.{MAX_SHARDS};

use crate::desk::Desk;
use crate::row::Row;
use ch_base::{ChanAnswer, ChanCall, Memory, UserAnswer, UserCall};
use ch_shard::{ChanSeat, ChanShard};
use ch_ushard::{UserSeat, UserShard};
use std::alloc::Global;
use std::marker::Model;

/// The desk of a caller that is alone, caller 0, with shards of its own.
/// Contracts see the history of each channel shard and of each user shard, in which every call is answered
/// as the definitions say.
#[derive(Drop)]
pub struct Bench {
    chans: Row<ChanSeat>,
    users: Row<UserSeat>,
}

impl Model for Bench {
    ghost use Rattle.ch_desk.specs.Bench.{BenchModel};

    ghost Value = { BenchModel };

    ghost view = { λ b. record { shards = b.chans; users = b.users } };
}

impl Bench {
    ghost use Rattle.ch_base.specs.Growth.{GrowsBy};
    ghost use Rattle.ch_history.specs.AnswerKinds.{IsAnswerTo, IsUserAnswerTo};
    ghost use Rattle.ch_history.specs.Answers.{answer_of};
    ghost use Rattle.ch_history.specs.Placement.{IsLegalAt, IsUserLegalAt};
    ghost use Rattle.ch_history.specs.UserAnswers.{user_answer_of};
    ghost use Rattle.ch_protocol.specs.declared.ask.Ask.TheVariants as ask;
    ghost use Rattle.ch_shard.specs.Stands.{Stands};
    ghost use Rattle.ch_ushard.specs.Stands as user_side;
    ghost use Rattle.ch_desk.specs.Alone.{IsNext};
    ghost use Rattle.ch_desk.specs.Bench.{seen, seen_user, view_of};
    ghost use Rattle.ch_desk.specs.AloneCalls.{IsAlone};
    ghost use Rattle.ch_desk.specs.Views.{MayAsk, StaysButChan, StaysButUser};

    /// A bench with so many channel shards and so many user shards, 1 to `MAX_SHARDS` of each, on which no call was
    /// made.
    pub fn new(alloc: Global, chans: u64, users: u64) -> Result<Bench, Memory>
        requires chans { (1 ≤ chans) × (chans ≤ MAX_SHARDS) }
        requires users { (1 ≤ users) × (users ≤ MAX_SHARDS) }
        ensures chans { IfOk result (λ bench. length bench.shards ≡ chans) }
        ensures users { IfOk result (λ bench. length bench.users ≡ users) }
        ensures empty { IfOk result (λ bench. (k : ℕ) → seen bench k ≡ []) }
        ensures empty_users { IfOk result (λ bench. (k : ℕ) → seen_user bench k ≡ []) }
    {
        let chans = Row::new(alloc, chans)?;
        let users = Row::new(alloc, users)?;
        Ok(Bench { chans, users })
    }

    /// Serves a call on a channel shard, to which it belongs. It doesn't wait: the answer is the definitions'
    /// at once, and the call's entry is the next of the shard.
    pub fn chan(&mut self, shard: u64, call: &ChanCall) -> Result<ChanAnswer, Memory>
        requires may { MayAsk (view_of self.old) (ask.Chan shard call.now) }
        ensures alone { IsNext answer_of (seen self.old shard) (seen self.new shard) call.now result }
        ensures grows { GrowsBy 0 call.now result (seen self.old shard) (seen self.new shard) }
        ensures legal { IsLegalAt (shard, length self.old.shards) (seen self.new shard) }
        ensures kind { IfOk result (IsAnswerTo call.now) }
        ensures elsewhere { StaysButChan shard (view_of self.old) (view_of self.new) }
        ensures users { self.new.users ≡ self.old.users }
    {
        self.chans.call(shard, call)
    }

    /// Serves a call on a user shard, to which it belongs. It doesn't wait: the answer is the definitions' at
    /// once, and the call's entry is the next of the shard.
    pub fn user(&mut self, shard: u64, call: &UserCall) -> Result<UserAnswer, Memory>
        requires may { MayAsk (view_of self.old) (ask.User shard call.now) }
        ensures alone { IsNext user_answer_of (seen_user self.old shard) (seen_user self.new shard) call.now result }
        ensures grows { GrowsBy 0 call.now result (seen_user self.old shard) (seen_user self.new shard) }
        ensures legal { IsUserLegalAt (shard, length self.old.users) (seen_user self.new shard) }
        ensures kind { IfOk result (IsUserAnswerTo call.now) }
        ensures elsewhere { StaysButUser shard (view_of self.old) (view_of self.new) }
        ensures shards { self.new.shards ≡ self.old.shards }
    {
        self.users.call(shard, call)
    }

    /// Nobody but caller 0 calls on these shards.
    pub fn alone(&self)
        ensures { IsAlone (view_of self.now) }
    {
        self.chans.count();
        self.users.count();
    }

    /// The channel shard with this number, which stands for the history of its calls.
    pub fn shard(&self, k: u64) -> &ChanShard
        requires { k < length self.now.shards }
        ensures { Stands result.now (seen self.now k) }
    {
        self.chans.shard(k).shard()
    }

    /// The user shard with this number, which stands for the history of its calls.
    pub fn user_shard(&self, k: u64) -> &UserShard
        requires { k < length self.now.users }
        ensures { user_side.Stands result.now (seen_user self.now k) }
    {
        self.users.shard(k).shard()
    }
}

impl<R> Desk<R> for Bench {
    ghost use Rattle.ch_desk.specs.Bench.{view_of};

    ghost view = { view_of };

    fn caller(&self) -> u64 {
        0
    }

    fn chan_shards(&self) -> u64 {
        self.chans.count()
    }

    fn user_shards(&self) -> u64 {
        self.users.count()
    }

    fn chan(&mut self, _rt: &R, shard: u64, call: &ChanCall) -> Result<ChanAnswer, Memory> {
        Bench::chan(self, shard, call)
    }

    fn user(&mut self, _rt: &R, shard: u64, call: &UserCall) -> Result<UserAnswer, Memory> {
        Bench::user(self, shard, call)
    }
}

ghost use Rattle.std.specs.Prelude.{◌≡◌, ◌<◌, ◌↔◌, IsTrue, Contains, IfOk};
ghost use Rattle.ch_base.specs.Growth.{GrowsBy};
ghost use Rattle.ch_desk.specs.Starving.{IsRefused, next_number};
ghost use Rattle.ch_desk.specs.Views.{MayAsk, StaysButChan, StaysButUser};
ghost use Rattle.ch_history.specs.AnswerKinds.{IsAnswerTo, IsUserAnswerTo};
ghost use Rattle.ch_history.specs.Placement.{IsLegalAt, IsUserLegalAt};
ghost use Rattle.ch_protocol.specs.declared.ask.Ask.TheVariants.{Chan, User};

use crate::desk::Desk;
use crate::numbers::NumberList;
use ch_base::{ChanAnswer, ChanCall, Memory, UserAnswer, UserCall};

/// A desk over another that is short of memory: the calls with given numbers answer want of memory and don't
/// reach the desk below, and all others are handed on to it. Calls on shards of both kinds are counted
/// together, from 0 on.
#[derive(Drop)]
pub struct Starved<D> {
    /// The desk below.
    pub desk: D,
    /// The numbers of the calls that are refused.
    pub refused: NumberList,
    /// The number of the next call. It stays at its type's end.
    pub number: u64,
}

impl<D> Starved<D> {
    /// The desk over this one at which the calls with these numbers are refused. No call was made yet.
    pub fn new(desk: D, refused: NumberList) -> Starved<D>
        ensures desk { result.desk ≡ desk }
        ensures refused { result.refused ≡ refused }
        ensures number { result.number ≡ 0 }
    {
        Starved {
            desk,
            refused,
            number: 0,
        }
    }

    /// Counts a call, and answers whether it is refused.
    fn refuses_next(&mut self) -> bool
        ensures refuses { IsTrue result ↔ Contains self.old.refused self.old.number }
        ensures same { self.new ≡ record self.old { number = next_number self.old.number } }
    {
        let number = self.number;
        self.number = number.saturating_add(1);
        self.refused.has(number)
    }

    /// Serves a call on a channel shard, to which it belongs, at the desk below, unless its number is refused.
    pub fn chan<R>(&mut self, rt: &R, shard: u64, call: &ChanCall) -> Result<ChanAnswer, Memory>
    where
        D: Desk<R>,
        requires may { MayAsk (D.view self.old.desk) (Chan shard call.now) }
        ensures grows { let old = D.view self.old.desk in GrowsBy old.caller call.now result (old.chans shard) ((D.view self.new.desk).chans shard) }
        ensures legal { IsLegalAt (shard, (D.view self.old.desk).chan_shards) ((D.view self.new.desk).chans shard) }
        ensures kind { IfOk result (IsAnswerTo call.now) }
        ensures elsewhere { StaysButChan shard (D.view self.old.desk) (D.view self.new.desk) }
        ensures refused { IsRefused self.old.refused self.old.number self.old.desk self.new.desk result }
        ensures same { self.new ≡ record self.old { desk = self.new.desk; number = next_number self.old.number } }
    {
        if self.refuses_next() {
            knows_chan::<R, D>(&self.desk, shard);
            return Err(Memory);
        }
        self.desk.chan(rt, shard, call)
    }

    /// Serves a call on a user shard, to which it belongs, at the desk below, unless its number is refused.
    pub fn user<R>(&mut self, rt: &R, shard: u64, call: &UserCall) -> Result<UserAnswer, Memory>
    where
        D: Desk<R>,
        requires may { MayAsk (D.view self.old.desk) (User shard call.now) }
        ensures grows { let old = D.view self.old.desk in GrowsBy old.caller call.now result (old.users shard) ((D.view self.new.desk).users shard) }
        ensures legal { IsUserLegalAt (shard, (D.view self.old.desk).user_shards) ((D.view self.new.desk).users shard) }
        ensures kind { IfOk result (IsUserAnswerTo call.now) }
        ensures elsewhere { StaysButUser shard (D.view self.old.desk) (D.view self.new.desk) }
        ensures refused { IsRefused self.old.refused self.old.number self.old.desk self.new.desk result }
        ensures same { self.new ≡ record self.old { desk = self.new.desk; number = next_number self.old.number } }
    {
        if self.refuses_next() {
            knows_user::<R, D>(&self.desk, shard);
            return Err(Memory);
        }
        self.desk.user(rt, shard, call)
    }
}

impl<R, D: Desk<R>> Desk<R> for Starved<D> {
    ghost view = { λ s. D.view s.desk };

    fn caller(&self) -> u64 {
        self.desk.caller()
    }

    fn chan_shards(&self) -> u64 {
        self.desk.chan_shards()
    }

    fn user_shards(&self) -> u64 {
        self.desk.user_shards()
    }

    fn chan(&mut self, rt: &R, shard: u64, call: &ChanCall) -> Result<ChanAnswer, Memory> {
        Starved::chan(self, rt, shard, call)
    }

    fn user(&mut self, rt: &R, shard: u64, call: &UserCall) -> Result<UserAnswer, Memory> {
        Starved::user(self, rt, shard, call)
    }
}

/// What the caller of the desk knows of a channel shard is legal.
fn knows_chan<R, D: Desk<R>>(desk: &D, shard: u64)
    requires { shard < (D.view desk.now).chan_shards }
    ensures { IsLegalAt (shard, (D.view desk.now).chan_shards) ((D.view desk.now).chans shard) }
{
    let _shards = desk.chan_shards();
}

/// What the caller of the desk knows of a user shard is legal.
fn knows_user<R, D: Desk<R>>(desk: &D, shard: u64)
    requires { shard < (D.view desk.now).user_shards }
    ensures { IsUserLegalAt (shard, (D.view desk.now).user_shards) ((D.view desk.now).users shard) }
{
    let _shards = desk.user_shards();
}

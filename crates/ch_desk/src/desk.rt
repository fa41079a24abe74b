ghost use Rattle.std.specs.Prelude.{◌≡◌, ◌<◌, ◌≤◌, ℕ, IfOk};
ghost use Rattle.ch_base.specs.Growth.{GrowsBy};
ghost use Rattle.ch_base.specs.declared.limits.TheConstants.{MAX_CALLERS};
ghost use Rattle.ch_config.specs.declared.limits.TheConstants.{MAX_SHARDS};
ghost use Rattle.ch_history.specs.AnswerKinds.{IsAnswerTo, IsUserAnswerTo};
ghost use Rattle.ch_history.specs.Placement.{IsLegalAt, IsUserLegalAt};
ghost use Rattle.ch_protocol.specs.declared.ask.Ask.TheVariants.{Chan, User};
ghost use Rattle.ch_desk.specs.Views.{DeskView, MayAsk, StaysButChan, StaysButUser};

use ch_base::{ChanAnswer, ChanCall, Memory, UserAnswer, UserCall};

/// Where a caller's calls on shards are served. `R` is the runtime with which a call may wait for other
/// callers; a desk at which no call waits takes any.
pub trait Desk<R> {
    /// What contracts see of it: for each shard, the list of its entries as this caller knows it.
    ghost view: { Self → DeskView };

    /// The caller's number, below `MAX_CALLERS`.
    fn caller(&self) -> u64
        ensures caller { result ≡ (view self.now).caller }
        ensures small { result < MAX_CALLERS };

    /// How many channel shards there are: 1 to `MAX_SHARDS`. What the caller knows of each is a legal history of calls
    /// that belong to it.
    fn chan_shards(&self) -> u64
        ensures count { result ≡ (view self.now).chan_shards }
        ensures some { 1 ≤ result }
        ensures few { result ≤ MAX_SHARDS }
        ensures legal { (k : ℕ) → k < result → IsLegalAt (k, result) ((view self.now).chans k) };

    /// How many user shards there are: 1 to `MAX_SHARDS`. What the caller knows of each is a legal history of calls
    /// that belong to it.
    fn user_shards(&self) -> u64
        ensures count { result ≡ (view self.now).user_shards }
        ensures some { 1 ≤ result }
        ensures few { result ≤ MAX_SHARDS }
        ensures legal { (k : ℕ) → k < result → IsUserLegalAt (k, result) ((view self.now).users k) };

    /// Serves a call on a channel shard, to which it belongs.
    fn chan(&mut self, rt: &R, shard: u64, call: &ChanCall) -> Result<ChanAnswer, Memory>
        requires may { MayAsk (view self.old) (Chan shard call.now) }
        ensures grows { let old = view self.old in GrowsBy old.caller call.now result (old.chans shard) ((view self.new).chans shard) }
        ensures legal { IsLegalAt (shard, (view self.old).chan_shards) ((view self.new).chans shard) }
        ensures kind { IfOk result (IsAnswerTo call.now) }
        ensures elsewhere { StaysButChan shard (view self.old) (view self.new) };

    /// Serves a call on a user shard, to which it belongs.
    fn user(&mut self, rt: &R, shard: u64, call: &UserCall) -> Result<UserAnswer, Memory>
        requires may { MayAsk (view self.old) (User shard call.now) }
        ensures grows { let old = view self.old in GrowsBy old.caller call.now result (old.users shard) ((view self.new).users shard) }
        ensures legal { IsUserLegalAt (shard, (view self.old).user_shards) ((view self.new).users shard) }
        ensures kind { IfOk result (IsUserAnswerTo call.now) }
        ensures elsewhere { StaysButUser shard (view self.old) (view self.new) };
}

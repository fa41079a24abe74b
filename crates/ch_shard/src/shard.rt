ghost use Rattle.std.specs.Prelude.{◌≡◌, ◌<◌, ℕ, List, [], ◌∷◌, ◌++◌, length, slice_get, sum_by, IsOk, IfOk, IsTrue, Some, MatchResult};
ghost use Rattle.ch_base.specs.Growth.{entry};
ghost use Rattle.ch_base.specs.declared.limits.TheConstants.{MAX_CALLERS};
ghost use Rattle.ch_history.specs.Subscriptions.{subscriptions, subs};
ghost use Rattle.ch_shard.specs.Tail.{tail_of};
ghost use Rattle.ch_subs.specs.Names.{names};

use crate::brief::Brief;
use crate::channels::Channels;
use crate::clock::clock_with;
use crate::tail::Tail;
use ch_base::{ChanAnswer, ChanCall, Memory};
use std::alloc::Global;
use std::marker::Model;

/// A channel shard: its channels, its last entries in brief, and its clock, a moment in milliseconds.
#[derive(Drop)]
pub struct ChanShard {
    channels: Channels,
    tail: Tail,
    clock: u64,
}

impl Model for ChanShard {
    ghost use Rattle.ch_history.specs.Limits.{IsMoment};
    ghost use Rattle.ch_shard.specs.ShardState.{ShardState};

    ghost Value = { ShardState };

    ghost view = { λ s. record { parts = s.channels; tail = s.tail; clock = s.clock } };

    ghost invariant = { λ s. IsMoment s.clock };
}

impl ChanShard {
    ghost use Rattle.ch_history.specs.ChannelName.{is_presence};
    ghost use Rattle.ch_history.specs.Entries.{ChanHistory};
    ghost use Rattle.ch_history.specs.Laws.{OccupancyAlternates, MembershipAlternates, NewcomersGreeted};
    ghost use Rattle.ch_history.specs.WellFormed.{IsWellFormed};
    ghost use Rattle.ch_history.specs.AnswerKinds.{IsAnswerTo};
    ghost use Rattle.ch_shard.specs.Stands.{Stands};

    /// A shard without subscriptions. It stands for the empty history.
    pub fn new(alloc: Global) -> Result<ChanShard, Memory>
        ensures { IfOk result (λ shard. Stands shard []) }
    {
        Ok(ChanShard {
            channels: Channels::new(alloc),
            tail: Tail::new(alloc)?,
            clock: 0,
        })
    }

    /// Serves one call of a caller, who has a number below `MAX_CALLERS`.
    ///
    /// After want of memory everything is as it was; a `Take` needs none. A call whose moment is below that of an earlier
    /// one is made at the greatest moment so far: that is the shard's clock. With each call the vacated notices that are
    /// due by then are released, before the call's own webhook events.
    ///
    /// The laws hold of every history that the shard then stands for: `channel_occupied` and `channel_vacated` of each
    /// channel alternate and end at whether a socket is subscribed or the channel's vacated notice is held,
    /// `member_added` and `member_removed` of each user of a presence channel alternate and end at whether the user is
    /// there, and a newcomer of a cache channel is sent exactly one of the latest event and a cache miss.
    pub fn apply(&mut self, caller: u64, call: &ChanCall) -> Result<ChanAnswer, Memory>
        requires caller { caller < MAX_CALLERS }
        requires formed { IsWellFormed call.now }
        ensures stands { (h : ChanHistory) → Stands self.old h → MatchResult result
            (λ answer. Stands self.new (h ++ entry caller call.now answer ∷ []))
            (λ _. Stands self.new h) }
        ensures take { call.now ≡ ChanCall.Take → IsOk result }
        ensures kind { IfOk result (IsAnswerTo call.now) }
        ensures occupancy { (h : ChanHistory) → Stands self.new h → (c : List ℕ) → OccupancyAlternates h c }
        ensures membership { (h : ChanHistory) → Stands self.new h → (c id : List ℕ) → IsTrue (is_presence c) → MembershipAlternates h c id }
        ensures newcomers { (h : ChanHistory) → Stands self.new h → NewcomersGreeted h }
    {
        let now = clock_with(self.clock, call);
        let answer = self.channels.serve(caller, call, now)?;
        self.tail.note(caller, call);
        self.clock = now;
        Ok(answer)
    }

    /// How many of the last entries are shown: all, or `LONGEST_TAIL` where there are more.
    pub fn tail_len(&self) -> u64
        ensures len { result ≡ length self.now.tail }
        ensures history { (h : ChanHistory) → Stands self.now h → result ≡ length (tail_of h) }
    {
        self.tail.len()
    }

    /// The entry with this place among the last ones, the oldest of them at 0.
    pub fn tail_at(&self, i: u64) -> Brief
        requires { i < length self.now.tail }
        ensures entry { slice_get self.now.tail i ≡ Some result }
        ensures history { (h : ChanHistory) → Stands self.now h → slice_get (tail_of h) i ≡ Some result }
    {
        self.tail.at(i)
    }

    /// How many subscriptions are open, over all channels.
    pub fn open_subs(&self) -> u64
        ensures subs { result ≡ length self.now.parts.subs }
        ensures history { (h : ChanHistory) → Stands self.now h → result ≡ sum_by (λ c. length (subs h c)) (names (subscriptions h)) }
    {
        self.channels.open_subs()
    }

    /// How many texts of frames the shard has printed so far: one for each frame of a call, however many sockets get it.
    pub fn texts(&self) -> u64 {
        self.channels.texts()
    }
}

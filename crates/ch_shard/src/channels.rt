ghost use Rattle.std.specs.Prelude.{◌≡◌, ◌≢◌, ◌<◌, ◌≤◌, [], ◌∷◌, ◌++◌, length, IsOk, IfOk, MatchResult};
ghost use Rattle.ch_base.specs.Growth.{entry};
ghost use Rattle.ch_base.specs.declared.limits.TheConstants.{MAX_CALLERS};

use ch_base::{ChanAnswer, ChanCall, Memory};
use ch_cache::Cache;
use ch_hooklog::HookLog;
use ch_outbox::Outbox;
use ch_presence::Presence;
use ch_print::Press;
use ch_subs::Subs;
use std::alloc::Global;
use std::marker::Model;

/// The parts of a shard: the open subscriptions, who is present by them, the latest events of cache
/// channels, the press for the frames of each call, the frames that wait for each caller, the webhook events that
/// wait for the next take, and the vacated notices that are held.
#[derive(Drop)]
pub struct Channels {
    pub(crate) alloc: Global,
    pub(crate) subs: Subs,
    pub(crate) presence: Presence,
    pub(crate) cache: Cache,
    pub(crate) press: Press,
    pub(crate) outbox: Outbox,
    pub(crate) log: HookLog,
}

impl Model for Channels {
    ghost use Rattle.ch_shard.specs.Parts.{Parts};
    ghost use Rattle.ch_shard.specs.Sound.{AreSoundRows};

    ghost Value = { Parts };

    ghost view = { λ s. record { subs = s.subs; cache = s.cache; outbox = s.outbox; log = s.log.hooks; held = s.log.held; spare = s.log.spare } };

    ghost invariant = { λ s. AreSoundRows s.subs s.presence.rows };
}

impl Channels {
    ghost use Rattle.ch_history.specs.Clock.{clock, clock_with};
    ghost use Rattle.ch_history.specs.Entries.{ChanHistory};
    ghost use Rattle.ch_history.specs.Limits.{IsMoment};
    ghost use Rattle.ch_history.specs.WellFormed.{IsWellFormed};
    ghost use Rattle.ch_history.specs.Held.{due};
    ghost use Rattle.ch_shard.specs.Holds.{Holds};
    ghost use Rattle.ch_shard.specs.Moves.{Moves};
    ghost use Rattle.ch_shard.specs.Parts.{IsUnchanged};
    ghost use Rattle.ch_history.specs.AnswerKinds.{IsAnswerTo};

    /// No channels. It takes no memory.
    pub fn new(alloc: Global) -> Channels
        ensures { Holds result [] }
    {
        Channels {
            alloc,
            subs: Subs::new(alloc),
            presence: Presence::new(alloc),
            cache: Cache::new(alloc),
            press: Press::new(alloc),
            outbox: Outbox::new(alloc),
            log: HookLog::new(alloc),
        }
    }

    /// How many subscriptions are open.
    pub fn open_subs(&self) -> u64
        ensures { result ≡ length self.now.subs }
    {
        self.subs.len()
    }

    /// How many texts were printed.
    pub fn texts(&self) -> u64 {
        self.press.texts()
    }

    /// Serves one call; `now` is the shard's clock with it. After want of memory everything is as it was.
    ///
    /// Whatever the call, the notices that are due by then are released with it. A `Take` carries no moment, so that
    /// none is due, and takes no memory.
    pub fn serve(&mut self, caller: u64, call: &ChanCall, now: u64) -> Result<ChanAnswer, Memory>
        requires caller { caller < MAX_CALLERS }
        requires formed { IsWellFormed call.now }
        requires moment { IsMoment now }
        ensures stands { (h : ChanHistory) → now ≡ clock_with (clock h) call.now → Holds self.old h → MatchResult result
            (λ answer. Holds self.new (h ++ entry caller call.now answer ∷ []))
            (λ _. Holds self.new h) }
        ensures take { call.now ≡ ChanCall.Take → IsOk result }
        ensures kind { IfOk result (IsAnswerTo call.now) }
    {
        match call {
            ChanCall::Take => Ok(self.take(caller)),
            _ => {
                self.log.reserve(self.log.due(now))?;
                let answer = self.answer(caller, call, now)?;
                self.log.release(now);
                Ok(answer)
            }
        }
    }

    /// Answers a call other than `Take`, and changes what it changes; the notices that are due afterwards are still to be released.
    /// After want of memory everything is as it was.
    fn answer(&mut self, caller: u64, call: &ChanCall, now: u64) -> Result<ChanAnswer, Memory>
        requires caller { caller < MAX_CALLERS }
        requires formed { IsWellFormed call.now }
        requires moment { IsMoment now }
        requires other { call.now ≢ ChanCall.Take }
        requires room { length (due now self.old.held) ≤ self.old.spare }
        ensures moves { MatchResult result (λ answer. Moves self.old self.new now (entry caller call.now answer)) (λ _. IsUnchanged self.old self.new) }
        ensures kind { IfOk result (IsAnswerTo call.now) }
    {
        match call {
            ChanCall::Join {
                socket,
                channel,
                member,
                ..
            } => self.join(caller, *socket, channel, member.as_ref(), now),
            ChanCall::Leave {
                socket,
                channel,
                ..
            } => self.leave(*socket, channel, now),
            ChanCall::Lost { socket, .. } => self.lost(*socket, now),
            ChanCall::Publish {
                channel,
                event,
                body,
                except,
                ..
            } => self.publish(channel, event, body, *except, now),
            ChanCall::Say {
                socket,
                channel,
                event,
                body,
                ..
            } => self.say(*socket, channel, event, body, now),
            ChanCall::Take => unreachable!(),
            ChanCall::TakeHooks { .. } => Ok(self.take_hooks(now)),
            ChanCall::Names { prefix } => self.names(prefix),
            ChanCall::Look { channel, .. } => self.look(channel, now),
            ChanCall::Users { channel } => self.users(channel),
        }
    }
}

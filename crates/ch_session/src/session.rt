ghost use Rattle.std.specs.Prelude.{◌≡◌, ◌+◌, [], ℕ, List, None, Some, OnOk, IfOk, IfErr, IfSome, drop, slice_get};
ghost use Rattle.ch_config.specs.Config.{IsConfig};
ghost use Rattle.ch_config.specs.declared.config.Config.{Config};
ghost use Rattle.ch_history.specs.Limits.{IsSocket, IsMoment};
ghost use Rattle.ch_rate.specs.Quiet.{quiet_from, due_of, quiet_after};
ghost use Rattle.ch_protocol.specs.Settling.{SettledAsk};
ghost use Rattle.ch_protocol.specs.Targets.{target_refusal};
ghost use Rattle.ch_protocol.specs.declared.ask.Ask.{Ask};
ghost use Rattle.ch_session.specs.Judging.{IsSoundAsk};
ghost use Rattle.ch_session.specs.Kept.{IsSession, HasShardsOf, losses_left};
ghost use Rattle.ch_session.specs.Losses.{IsNextUsed, IsNextLoss, loss_at};
ghost use Rattle.ch_session.specs.StartFaults.{IsFaultOf};

use crate::account::Account;
use crate::start_fault::StartFault;
use crate::target::target_refusal;
use crate::waiting::Waiting;
use ch_base::{ChanCall, MALFORMED_MESSAGE, UserCall};
use ch_config::Config;
use ch_protocol::{Ask, Heard};
use ch_rate::{Activity, Due};
use std::alloc::Global;
use std::marker::Model;

/// The session of one connection.
///
/// Contracts see what it keeps, and say by `IsSession` of `specs/` for which settled asks it stands. A
/// moment is a number of milliseconds, at most `LATEST_MOMENT`.
#[derive(Drop)]
pub struct Session {
    pub(crate) alloc: Global,
    pub(crate) start: u64,
    pub(crate) number: u64,
    pub(crate) chans: u64,
    pub(crate) told: Account,
    pub(crate) waits: Waiting,
    activity: Activity,
    // A place in the row of the channel shards and then the user shards.
    lost: u64,
}

impl Model for Session {
    ghost use Rattle.ch_session.specs.Kept.{Kept, IsSoundSession};

    ghost Value = { Kept };

    ghost view = { λ s. record { start = s.start; number = s.number; chans = s.chans; told = s.told; waits = s.waits; quiet = s.activity; lost = s.lost } };

    ghost invariant = { λ s. IsSoundSession (record { start = s.start; number = s.number; chans = s.chans; told = s.told; waits = s.waits; quiet = s.activity; lost = s.lost }) };
}

impl Session {
    /// Opens the session of the socket with this number, on a server that started at the second `start`,
    /// where the target opens a connection (Pusher Channels protocol, "Making a connection").
    pub fn start(
        alloc: Global,
        config: &Config,
        start: u64,
        number: u64,
        target: &str,
        now: u64,
    ) -> Result<Session, StartFault>
        requires config { IsConfig config.now }
        requires number { IsSocket number }
        requires now { IsMoment now }
        ensures opens { OnOk result (target_refusal config.now.key target.now ≡ None) }
        ensures stands { IfOk result (λ s. IsSession s start number []) }
        ensures over { IfOk result (λ s. HasShardsOf s config.now) }
        ensures quiet { IfOk result (λ s. s.quiet ≡ quiet_from now) }
        ensures idle { IfOk result (λ s. s.waits ≡ Waiting.Nothing) }
        ensures owes { IfOk result (λ s. s.lost ≡ 0) }
        ensures refused { IfErr result (IsFaultOf (target_refusal config.now.key target.now)) }
    {
        if let Some(code) = target_refusal(alloc, config.key.as_str(), target)? {
            return Err(StartFault::Code(code));
        }
        Ok(Session {
            alloc,
            start,
            number,
            chans: config.chan_shards,
            told: Account::new(alloc, config.chan_shards + config.user_shards)?,
            waits: Waiting::Nothing,
            activity: Activity::new(now),
            lost: 0,
        })
    }

    /// The socket's number, 1 to 2^62.
    pub fn number(&self) -> u64
        ensures number { result ≡ self.now.number }
        ensures socket { IsSocket result }
    {
        self.number
    }

    /// The second of the server's start.
    pub fn start_second(&self) -> u64
        ensures { result ≡ self.now.start }
    {
        self.start
    }

    /// Notes that the connection was heard.
    pub(crate) fn hears(&mut self, now: u64)
        requires { IsMoment now }
        ensures { self.new ≡ record self.old { quiet = quiet_from now } }
    {
        self.activity.heard(now);
    }

    /// Hears a binary message, which is refused as malformed.
    pub fn binary(&mut self, now: u64) -> Heard
        requires { IsMoment now }
        ensures refused { result ≡ Heard.Refuse MALFORMED_MESSAGE }
        ensures same { self.new ≡ record self.old { quiet = quiet_from now } }
        ensures stands { (start number : ℕ) (asks : List SettledAsk) → IsSession self.old start number asks → IsSession self.new start number asks }
    {
        self.activity.heard(now);
        Heard::Refuse(MALFORMED_MESSAGE)
    }

    /// What the connection is due at the moment `now`: a ping after `SILENCE` of `ch_rate`, its end `PATIENCE`
    /// after a ping that wasn't answered.
    pub fn tick(&mut self, now: u64) -> Due
        requires { IsMoment now }
        ensures due { result ≡ due_of self.old.quiet now }
        ensures same { self.new ≡ record self.old { quiet = quiet_after self.old.quiet now } }
        ensures stands { (start number : ℕ) (asks : List SettledAsk) → IsSession self.old start number asks → IsSession self.new start number asks }
    {
        self.activity.due(now)
    }

    /// The next loss that is to be made: the socket is lost once on each shard that the session uses,
    /// channel shards ascending, then user shards ascending.
    pub fn next_loss(&self, now: u64) -> Option<Ask>
        ensures next { IsNextLoss self.now.told.used self.now.lost (loss_at self.now.chans self.now.number now) result }
        ensures left { (start number : ℕ) (asks : List SettledAsk) → IsSession self.now start number asks → result ≡ slice_get (losses_left self.now asks now) 0 }
        ensures sound { (config : Config) → HasShardsOf self.now config → IsMoment now → IfSome result (IsSoundAsk config) }
    {
        match self.told.next_used(self.lost) {
            Some(place) => Some(loss_at(self.chans, self.number, now, place)),
            None => None,
        }
    }

    /// The next loss was made.
    pub fn loss_made(&mut self)
        ensures moves { (place : ℕ) → IsNextUsed self.old.told.used self.old.lost (Some place) → self.new.lost ≡ place + 1 }
        ensures made { (start number now : ℕ) (asks : List SettledAsk) → IsSession self.old start number asks → losses_left self.new asks now ≡ drop 1 (losses_left self.old asks now) }
        ensures same { self.new ≡ record self.old { lost = self.new.lost } }
        ensures stands { (start number : ℕ) (asks : List SettledAsk) → IsSession self.old start number asks → IsSession self.new start number asks }
    {
        if let Some(place) = self.told.next_used(self.lost) {
            self.lost = place + 1;
        }
    }
}

/// The loss on the shard at this place of the row.
fn loss_at(chans: u64, socket: u64, now: u64, place: u64) -> Ask
    ensures { result ≡ loss_at chans socket now place }
{
    if place < chans {
        Ask::Chan {
            shard: place,
            call: ChanCall::Lost { socket, at: now },
        }
    } else {
        Ask::User {
            shard: place - chans,
            call: UserCall::Lost { socket, at: now },
        }
    }
}

ghost use Rattle.std.specs.Prelude.{◌≡◌, ◌<◌, ◌≤◌, ◌+◌, ◌-◌, [], nat_le, length, replicate, true, false, None, Some, slice_set, IfOk, List, ℕ};
ghost use Rattle.std.specs.Option.{option_or, option_copied};
ghost use Rattle.ch_rate.specs.Rate.{IsRateOf, rate_allows};
ghost use Rattle.ch_protocol.specs.Settling.{count_after};
ghost use Rattle.ch_protocol.specs.declared.ask.Made.TheVariants.{Chan};
ghost use Rattle.ch_base.specs.declared.limits.TheConstants.{LATEST_MOMENT};
ghost use Rattle.ch_base.specs.declared.channel.ChanAnswer.TheVariants.{Joined};
ghost use Rattle.ch_session.specs.Losses.{IsNextUsed};
ghost use Rattle.ch_session.specs.Told.{accepted_with, used_with};

use ch_base::{ChanAnswer, Memory, Text};
use ch_protocol::MAX_SUBSCRIPTIONS;
use ch_rate::Rate;
use std::alloc::Global;
use std::marker::Model;

/// What the settled asks of a session have told it.
#[derive(Drop)]
pub struct Account {
    subscriptions: u64,
    user: Option<Text>,
    rate: Rate,
    used: Vec<bool>,
}

impl Model for Account {
    ghost use Rattle.ch_session.specs.Told.{Told};

    ghost Value = { Told };

    ghost view = { λ t. record { subscriptions = t.subscriptions; user = t.user; rate = t.rate; used = t.used.items } };
}

impl Account {
    /// Nothing was told yet. There are so many shards.
    pub fn new(alloc: Global, shards: u64) -> Result<Account, Memory>
        ensures subscriptions { IfOk result (λ t. t.subscriptions ≡ 0) }
        ensures user { IfOk result (λ t. t.user ≡ None) }
        ensures rate { IfOk result (λ t. IsRateOf t.rate []) }
        ensures used { IfOk result (λ t. t.used ≡ replicate shards false) }
    {
        Ok(Account {
            subscriptions: 0,
            user: None,
            rate: Rate::new(),
            used: vec![in alloc; false; shards as usize]?,
        })
    }

    /// Whether there are as many subscriptions as there may be.
    pub fn is_full(&self) -> bool
        ensures { result ≡ nat_le MAX_SUBSCRIPTIONS self.now.subscriptions }
    {
        self.subscriptions >= MAX_SUBSCRIPTIONS
    }

    /// Who is signed in.
    pub fn user(&self) -> Option<&Text>
        ensures { option_copied result ≡ self.now.user }
    {
        self.user.as_ref()
    }

    /// Whether one more client event is allowed at the moment `now`.
    pub fn allows(&self, now: u64) -> bool
        requires { now ≤ LATEST_MOMENT }
        ensures { (accepted : List ℕ) → IsRateOf self.now.rate accepted → result ≡ rate_allows accepted now }
    {
        self.rate.allowed(now)
    }

    /// The first place from this one on of a shard that is used.
    pub fn next_used(&self, from: u64) -> Option<u64>
        ensures { IsNextUsed self.now.used from result }
    {
        for place in from..self.used.len() as u64 {
            if self.used[place as usize] {
                return Some(place);
            }
        }
        None
    }

    /// A call on the shard at this place was answered so at the moment `now`.
    pub fn answered(&mut self, place: u64, answer: &ChanAnswer, now: u64)
        requires few { answer.now ≡ Joined → self.old.subscriptions < MAX_SUBSCRIPTIONS }
        requires place { place < length self.old.used }
        requires now { now ≤ LATEST_MOMENT }
        ensures subscriptions { self.new.subscriptions ≡ count_after self.old.subscriptions (Chan answer.now) }
        ensures user { self.new.user ≡ self.old.user }
        ensures rate { (accepted : List ℕ) → IsRateOf self.old.rate accepted → IsRateOf self.new.rate (accepted_with accepted answer.now now) }
        ensures used { self.new.used ≡ used_with self.old.used place (Chan answer.now) }
    {
        match answer {
            ChanAnswer::Joined => {
                self.subscriptions += 1;
                self.used[place as usize] = true;
            }
            ChanAnswer::Left => self.subscriptions = self.subscriptions.saturating_sub(1),
            ChanAnswer::Said => self.rate.accept(now),
            _ => {}
        }
    }

    /// A user is signed in, on the shard at this place. The first one stays.
    pub fn signed_in(&mut self, place: u64, user: Text)
        requires { place < length self.old.used }
        ensures { self.new ≡ record self.old { user = option_or self.old.user (Some user); used = slice_set self.old.used place true } }
    {
        self.used[place as usize] = true;
        if self.user.is_none() {
            self.user = Some(user);
        }
    }

    /// The shard at this place is used.
    pub fn uses(&mut self, place: u64)
        requires { place < length self.old.used }
        ensures { self.new ≡ record self.old { used = slice_set self.old.used place true } }
    {
        self.used[place as usize] = true;
    }
}

ghost use Rattle.std.specs.Prelude.{◌≡◌, ◌≤◌, ◌+◌, ℕ, List, bytes_eq, filter, not, vec_len, vec_capacity, Some, None, OnOk, OnErr, if◌then◌else◌};
ghost use Rattle.std.specs.Option.{option_copied};
ghost use Rattle.ch_history.specs.Cache.{lasting};
ghost use Rattle.ch_history.specs.Limits.{IsMoment};
ghost use Rattle.ch_history.specs.declared.limits.TheConstants.{CACHED_FOR};
ghost use Rattle.ch_cache.specs.Latest.{is_event_on, lasts, found, latest_in};

use crate::latest_event::LatestEvent;
use ch_base::{Memory, Text};
use ch_history::{CACHED_FOR, Cached};
use std::alloc::Global;
use std::marker::Model;

/// The latest event of each channel, by a plain list with a place for each channel that has one. All
/// moments are in milliseconds.
#[derive(Drop)]
pub struct Cache {
    alloc: Global,
    events: Vec<LatestEvent>,
}

impl Model for Cache {
    ghost use Rattle.std.specs.Prelude.{List};
    ghost use Rattle.ch_cache.specs.declared.latest_event.LatestEvent.{LatestEvent};

    ghost Value = { List LatestEvent };

    ghost view = { λ c. c.events.items };
}

impl Cache {
    /// A cache without events. It takes no memory.
    pub fn new(alloc: Global) -> Cache
        ensures { (c : List ℕ) (at : ℕ) → latest_in result c at ≡ None }
    {
        Cache {
            alloc,
            events: Vec::new(alloc),
        }
    }

    /// Makes this the latest event of the channel; it ends `CACHED_FOR` after `now`. Nothing changes after
    /// want of memory.
    pub fn put(&mut self, channel: &Text, event: &Text, body: &Text, now: u64) -> Result<(), Memory>
        requires { IsMoment now }
        ensures ok { OnOk result ((c : List ℕ) (at : ℕ) → latest_in self.new c at
            ≡ (if bytes_eq channel.now c
            then lasting at (Some (record { event = event.now; body = body.now; ends = now + CACHED_FOR }))
            else latest_in self.old c at)) }
        ensures err { OnErr result (self.new ≡ self.old) }
    {
        let cached = Cached {
            event: event.copy(self.alloc)?,
            body: body.copy(self.alloc)?,
            ends: now + CACHED_FOR,
        };
        let latest = LatestEvent {
            channel: channel.copy(self.alloc)?,
            cached,
        };
        self.events.reserve(1)?;
        forget(&mut self.events, channel);
        self.events.push_reserved(latest);
        Ok(())
    }

    /// The event that was last put for the channel; none where there was none, or where it has ended.
    pub fn latest(&self, channel: &Text, now: u64) -> Option<&Cached>
        ensures { option_copied result ≡ latest_in self.now channel.now now }
    {
        let latest = find(self.events.as_slice(), channel, now)?;
        Some(&latest.cached)
    }

    /// Removes the events that have ended. It takes no memory.
    pub fn sweep(&mut self, now: u64)
        ensures swept { self.new ≡ filter (lasts now) self.old }
        ensures latest { (c : List ℕ) (at : ℕ) → now ≤ at → latest_in self.new c at ≡ latest_in self.old c at }
    {
        keep_lasting(&mut self.events, now);
    }
}

/// The event of the channel that hasn't ended.
fn find<'a>(events: &'a [LatestEvent], channel: &Text, now: u64) -> Option<&'a LatestEvent>
    ensures { option_copied result ≡ found events.now channel.now now }
{
    events.iter().find(|event| event.channel == *channel && now < event.cached.ends)
}

/// Removes the channel's event.
fn forget(events: &mut Vec<LatestEvent>, channel: &Text)
    ensures items { events.new.items ≡ filter (λ e. not (is_event_on channel.now e)) events.old.items }
    ensures len { vec_len events.new ≤ vec_len events.old }
    ensures capacity { vec_capacity events.new ≡ vec_capacity events.old }
{
    events.retain(|event| event.channel != *channel);
}

/// Removes the events that have ended.
fn keep_lasting(events: &mut Vec<LatestEvent>, now: u64)
    ensures { events.new.items ≡ filter (lasts now) events.old.items }
{
    events.retain(|event| now < event.cached.ends);
}

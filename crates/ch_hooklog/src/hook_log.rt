ghost use Rattle.std.specs.Prelude.{◌≡◌, ◌+◌, ◌<◌, ◌^◌, ◌≤◌, [], ◌∷◌, ◌++◌, All, OnOk, length, nat_le, vec_len, vec_capacity};
ghost use Rattle.std.specs.VecDeque.{deque_len, deque_capacity};
ghost use Rattle.ch_history.specs.declared.limits.TheConstants.{HELD_FOR};
ghost use Rattle.ch_history.specs.Held.{due, not_due, has_notice, vacated_events, held_after, hooks_after};
ghost use Rattle.ch_hooklog.specs.HookLog.{without};
ghost use Rattle.ch_hooklog.specs.Noting.{logged_by, held_by};

use ch_base::{Hook, HookList, Memory, Text};
use ch_history::{HELD_FOR, HeldNotice};
use std::alloc::Global;
use std::collections::VecDeque;
use std::marker::Model;
use std::mem;

/// The webhook events that were made since the last take, the vacated notices that are held back, and for how many
/// more of both there is room.
///
/// No held notice is older than the moment `oldest`, so that what is held is looked through only where one may be due.
#[derive(Drop)]
pub struct HookLog {
    alloc: Global,
    hooks: Vec<Hook>,
    held: VecDeque<HeldNotice>,
    oldest: u64,
    spare: usize,
}

impl Model for HookLog {
    ghost use Rattle.std.specs.Prelude.{◌+◌, ◌≤◌, All, vec_len, vec_capacity};
    ghost use Rattle.std.specs.VecDeque.{deque_len, deque_capacity};
    ghost use Rattle.ch_hooklog.specs.HookLog.{Logged};

    ghost Value = { Logged };

    ghost view = { λ l. record { hooks = l.hooks.items; held = l.held.items; spare = l.spare } };

    ghost invariant = { λ l.
        (vec_len l.hooks + l.spare ≤ vec_capacity l.hooks)
        × (deque_len l.held + l.spare ≤ deque_capacity l.held)
        × All (λ n. l.oldest ≤ n.since) l.held.items };
}

impl HookLog {
    ghost use Rattle.ch_hooklog.specs.HookLog.{Puts, Notes, IsOfOneCall};

    /// A log in which nothing waits or is held. It takes no memory.
    pub fn new(alloc: Global) -> HookLog
        ensures hooks { result.hooks ≡ [] }
        ensures held { result.held ≡ [] }
    {
        HookLog {
            alloc,
            hooks: Vec::new(alloc),
            held: VecDeque::new(alloc),
            oldest: 0,
            spare: 0,
        }
    }

    /// Makes room for n more events or notices. The log and what is held stay and no spare room falls, also where
    /// there is no memory.
    pub fn reserve(&mut self, n: u64) -> Result<(), Memory>
        ensures hooks { self.new.hooks ≡ self.old.hooks }
        ensures held { self.new.held ≡ self.old.held }
        ensures spare { self.old.spare ≤ self.new.spare }
        ensures room { OnOk result (n ≤ self.new.spare) }
    {
        let n = n as usize;
        if self.spare < n {
            self.hooks.reserve(n)?;
            self.held.reserve(n)?;
            self.spare = n;
        }
        Ok(())
    }

    /// Adds an event at the end. It takes no memory.
    pub fn put(&mut self, hook: Hook)
        requires { 0 < self.old.spare }
        ensures { Puts self.old self.new hook }
    {
        self.hooks.push_reserved(hook);
        self.spare -= 1;
    }

    /// Holds the channel's vacated notice back from this moment on, in milliseconds. It takes no memory.
    pub fn hold(&mut self, channel: Text, now: u64)
        requires { 0 < self.old.spare }
        ensures hooks { self.new.hooks ≡ self.old.hooks }
        ensures held { self.new.held ≡ self.old.held ++ record { channel = channel; since = now } ∷ [] }
        ensures spare { self.new.spare + 1 ≡ self.old.spare }
    {
        self.oldest = if self.held.is_empty() {
            now
        } else {
            self.oldest.min(now)
        };
        self.held.push_back_reserved(HeldNotice {
            channel,
            since: now,
        });
        self.spare -= 1;
    }

    /// Drops the channel's notice where one is held, and answers whether one was. It takes no memory.
    pub fn cancel(&mut self, channel: &Text) -> bool
        ensures answer { result ≡ has_notice self.old.held channel.now }
        ensures hooks { self.new.hooks ≡ self.old.hooks }
        ensures held { self.new.held ≡ without self.old.held channel.now }
        ensures spare { self.new.spare ≡ self.old.spare }
    {
        let is_held = is_held(&self.held, channel);
        forget(&mut self.held, channel);
        is_held
    }

    /// Notes one event at this moment, in milliseconds. A Vacated is held, an Occupied of a channel whose notice is
    /// held ends that notice instead, and every other event is added at the end. It takes no memory.
    pub fn note(&mut self, hook: Hook, now: u64)
        requires { 0 < self.old.spare }
        ensures { Notes self.old self.new now hook }
    {
        match hook {
            Hook::Occupied { channel } => {
                if !self.cancel(&channel) {
                    self.put(Hook::Occupied { channel });
                }
            }
            Hook::Vacated { channel } => self.hold(channel, now),
            other => self.put(other),
        }
    }

    /// Makes the events of one call at this moment, in milliseconds: the notices that are due by then, and after
    /// them the events, in order. It takes no memory.
    pub fn make(&mut self, hooks: Vec<Hook>, now: u64)
        requires room { vec_len hooks + length (due now self.old.held) ≤ self.old.spare }
        requires call { IsOfOneCall hooks.items }
        ensures hooks { self.new.hooks ≡ self.old.hooks ++ hooks_after now hooks.items self.old.held }
        ensures held { self.new.held ≡ held_after now hooks.items self.old.held }
    {
        self.release(now);
        note_all(self, hooks, now);
    }

    /// How many of the held notices are due at this moment, in milliseconds.
    pub fn due(&self, now: u64) -> u64
        ensures due { result ≡ length (due now self.now.held) }
        ensures bound { result < 2 ^ 63 }
    {
        if !is_due(self.oldest, now) {
            return 0;
        }
        count_due(&self.held, now)
    }

    /// Moves the notices that are due at this moment to the end of the log, in order. It takes no memory.
    pub fn release(&mut self, now: u64)
        requires { length (due now self.old.held) ≤ self.old.spare }
        ensures hooks { self.new.hooks ≡ self.old.hooks ++ vacated_events (due now self.old.held) }
        ensures held { self.new.held ≡ not_due now self.old.held }
        ensures spare { self.new.spare + length (due now self.old.held) ≡ self.old.spare }
    {
        if !is_due(self.oldest, now) {
            return;
        }
        self.spare -= count_due(&self.held, now) as usize;
        self.oldest = move_due(&mut self.held, &mut self.hooks, now);
    }

    /// Takes all events out, the oldest first. What is held stays. It takes no memory.
    pub fn take_all(&mut self) -> HookList
        ensures taken { result ≡ self.old.hooks }
        ensures emptied { self.new.hooks ≡ [] }
        ensures held { self.new.held ≡ self.old.held }
    {
        let taken = mem::replace(&mut self.hooks, Vec::new(self.alloc));
        self.spare = 0;
        HookList::from_vec(taken)
    }
}

/// Notes the events in order.
fn note_all(log: &mut HookLog, mut hooks: Vec<Hook>, now: u64)
    requires { vec_len hooks ≤ log.old.spare }
    ensures hooks { log.new.hooks ≡ log.old.hooks ++ logged_by now hooks.items log.old.held }
    ensures held { log.new.held ≡ held_by now hooks.items log.old.held }
{
    hooks.reverse();
    while let Some(hook) = hooks.pop() {
        log.note(hook, now);
    }
}

/// Whether a notice held since then is due now.
fn is_due(since: u64, now: u64) -> bool
    ensures { result ≡ nat_le (since + HELD_FOR) now }
{
    now.saturating_sub(since) >= HELD_FOR
}

/// Whether a notice of the channel is held.
fn is_held(held: &VecDeque<HeldNotice>, channel: &Text) -> bool
    ensures { result ≡ has_notice held.now.items channel.now }
{
    held.iter().any(|notice| notice.channel == *channel)
}

/// Drops the channel's notices.
fn forget(held: &mut VecDeque<HeldNotice>, channel: &Text)
    ensures items { held.new.items ≡ without held.old.items channel.now }
    ensures len { deque_len held.new ≤ deque_len held.old }
    ensures capacity { deque_capacity held.new ≡ deque_capacity held.old }
{
    held.retain(|notice| notice.channel != *channel);
}

/// How many of the held notices are due.
fn count_due(held: &VecDeque<HeldNotice>, now: u64) -> u64
    ensures due { result ≡ length (due now held.now.items) }
    ensures bound { result < 2 ^ 63 }
{
    held.iter()
        .filter(|notice| is_due(notice.since, now))
        .count() as u64
}

/// Moves the notices that are due to the end of the log, in order, and answers a moment that none of the others is
/// older than.
///
/// What is held goes round once: each notice is taken from the front, and comes back at the end where it isn't due.
fn move_due(held: &mut VecDeque<HeldNotice>, hooks: &mut Vec<Hook>, now: u64) -> u64
    requires { vec_len hooks.old + length (due now held.old.items) ≤ vec_capacity hooks.old }
    ensures hooks { hooks.new.items ≡ hooks.old.items ++ vacated_events (due now held.old.items) }
    ensures len { vec_len hooks.new ≡ vec_len hooks.old + length (due now held.old.items) }
    ensures room { vec_capacity hooks.new ≡ vec_capacity hooks.old }
    ensures held { held.new.items ≡ not_due now held.old.items }
    ensures held_len { deque_len held.new ≤ deque_len held.old }
    ensures held_room { deque_capacity held.new ≡ deque_capacity held.old }
    ensures oldest { All (λ n. result ≤ n.since) held.new.items }
{
    let mut oldest = now;
    for _ in 0..held.len() {
        let notice = match held.pop_front() {
            Some(notice) => notice,
            None => unreachable!(),
        };
        if is_due(notice.since, now) {
            hooks.push_reserved(Hook::Vacated {
                channel: notice.channel,
            });
        } else {
            oldest = oldest.min(notice.since);
            held.push_back_reserved(notice);
        }
    }
    oldest
}

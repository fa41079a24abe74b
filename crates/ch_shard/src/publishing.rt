ghost use Rattle.std.specs.Prelude.{◌≡◌, ◌≤◌, ℕ, List, OnOk, OnErr, MatchResult};
ghost use Rattle.ch_cache.specs.Latest.{latest_in};
ghost use Rattle.ch_history.specs.Limits.{IsMoment};
ghost use Rattle.ch_shard.specs.Parts.{IsUnchanged, PublishGives, after_event, event_at};

use crate::channels::Channels;
use crate::effects::{Effects, hand_over, make_room};
use crate::news::event_frame;
use crate::telling::broadcast;
use ch_base::{ChanAnswer, Memory, Text};
use ch_cache::Cache;
use ch_names::is_cache;

impl Channels {
    pub(crate) fn publish(
        &mut self,
        channel: &Text,
        event: &Text,
        body: &Text,
        except: Option<u64>,
        now: u64,
    ) -> Result<ChanAnswer, Memory>
        requires { IsMoment now }
        ensures { MatchResult result (λ answer. PublishGives self.old self.new now channel.now event.now body.now except answer) (λ _. IsUnchanged self.old self.new) }
    {
        let subs = self.subs.count(channel);
        let users = self.user_count(channel);
        let frame = event_frame(self.alloc, channel, event, body, None)?;
        let printed = self.press.print(frame)?;
        let frames = broadcast(self.alloc, &self.subs, channel, &printed, except)?;
        let hooks = Vec::new(self.alloc);
        let made = Effects { frames, hooks };
        make_room(&mut self.outbox, &mut self.log, &made, now)?;
        keep(&mut self.cache, channel, event, body, now)?;
        hand_over(&mut self.outbox, &mut self.log, made, now);
        Ok(ChanAnswer::Sent { subs, users })
    }
}

/// Makes this the latest event of the channel, where it keeps one, and removes the events that have ended. Nothing
/// changes after want of memory.
fn keep(
    cache: &mut Cache,
    channel: &Text,
    event: &Text,
    body: &Text,
    now: u64,
) -> Result<(), Memory>
    requires { IsMoment now }
    ensures ok { OnOk result ((d : List ℕ) (at : ℕ) → now ≤ at
        → latest_in cache.new d at ≡ after_event (latest_in cache.old) channel.now (event_at now event.now body.now) d at) }
    ensures err { OnErr result (cache.new ≡ cache.old) }
{
    put_latest(cache, channel, event, body, now)?;
    cache.sweep(now);
    Ok(())
}

/// Makes this the latest event of the channel, where it keeps one. Nothing changes after want of memory.
fn put_latest(
    cache: &mut Cache,
    channel: &Text,
    event: &Text,
    body: &Text,
    now: u64,
) -> Result<(), Memory>
    requires { IsMoment now }
    ensures ok { OnOk result ((d : List ℕ) (at : ℕ)
        → latest_in cache.new d at ≡ after_event (latest_in cache.old) channel.now (event_at now event.now body.now) d at) }
    ensures err { OnErr result (cache.new ≡ cache.old) }
{
    if !is_cache(channel.as_str()) {
        return Ok(());
    }
    cache.put(channel, event, body, now)?;
    Ok(())
}

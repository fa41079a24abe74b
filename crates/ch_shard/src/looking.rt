ghost use Rattle.std.specs.Prelude.{◌≡◌, length, option_map, IfOk};
ghost use Rattle.ch_cache.specs.Latest.{latest_in};
ghost use Rattle.ch_history.specs.Cache.{cache_row};
ghost use Rattle.ch_history.specs.Presence.{users_in};
ghost use Rattle.ch_history.specs.Subscriptions.{on_channel};
ghost use Rattle.ch_presence.specs.Members.{ids_on};
ghost use Rattle.ch_shard.specs.Parts.{looked, user_ids};

use crate::channels::Channels;
use ch_base::{CacheRow, ChanAnswer, Memory, Text, TextList};
use ch_cache::Cache;
use ch_history::Cached;
use ch_presence::Presence;
use std::alloc::Global;

impl Channels {
    pub(crate) fn look(&self, channel: &Text, now: u64) -> Result<ChanAnswer, Memory>
        ensures { IfOk result (λ answer. answer ≡ looked self.now now channel.now) }
    {
        Ok(ChanAnswer::Looked {
            subs: self.subs.count(channel),
            users: self.user_count(channel),
            cache: cache_row(self.alloc, &self.cache, channel, now)?,
        })
    }

    pub(crate) fn users(&self, channel: &Text) -> Result<ChanAnswer, Memory>
        ensures { IfOk result (λ answer. answer ≡ user_ids self.now.subs channel.now) }
    {
        let ids = user_ids(self.alloc, &self.presence, channel)?;
        Ok(ChanAnswer::Ids(ids))
    }

    /// How many users are on the channel.
    pub(crate) fn user_count(&self, channel: &Text) -> u64
        ensures { result ≡ length (users_in channel.now (on_channel self.now.subs channel.now)) }
    {
        self.presence.count(channel)
    }
}

/// The channel's latest event, with the seconds until it ends.
fn cache_row(
    alloc: Global,
    cache: &Cache,
    channel: &Text,
    now: u64,
) -> Result<Option<CacheRow>, Memory>
    ensures { IfOk result (λ row. row ≡ option_map (cache_row now) (latest_in cache.now channel.now now)) }
{
    match cache.latest(channel, now) {
        None => Ok(None),
        Some(cached) => Ok(Some(row_of(alloc, cached, now)?)),
    }
}

/// The event's body, with the seconds until it ends, rounded up.
fn row_of(alloc: Global, cached: &Cached, now: u64) -> Result<CacheRow, Memory>
    ensures { IfOk result (λ row. row ≡ cache_row now cached.now) }
{
    Ok(CacheRow {
        body: cached.body.copy(alloc)?,
        ttl: cached.ends.saturating_sub(now).div_ceil(1_000),
    })
}

/// The ids of the channel's users, ascending.
fn user_ids(alloc: Global, presence: &Presence, channel: &Text) -> Result<TextList, Memory>
    ensures { IfOk result (λ ids. ids ≡ ids_on presence.now.rows channel.now) }
{
    let mut ids = TextList::new(alloc);
    for i in 0..presence.count(channel) {
        let member = presence.row(channel, i);
        let id = member.user_id.copy(alloc)?;
        ids.push(id)?;
    }
    Ok(ids)
}

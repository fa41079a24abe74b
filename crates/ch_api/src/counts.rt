//! What a reply tells of a channel (Pusher Channels documentation, HTTP API, "info").
ghost use Rattle.std.specs.Prelude.{◌≡◌, ◌++◌, bytes_eq, map, IfOk, OnOk};
ghost use Rattle.std.specs.List.{list_any, slice_split};
ghost use Rattle.std.specs.Option.{option_copied};
ghost use Rattle.ch_requests.specs.Fields.{is_comma};
ghost use Rattle.ch_requests.specs.Plans.{info_has, wants_users, wants_subs, wants_cache, wanted_of, has_info, counted};
ghost use Rattle.ch_api.specs.Telling.{counted_in};

use ch_base::{Memory, Text};
use ch_names::{is_presence, is_user_channel};
use ch_requests::{Counted, CountedList, Trigger, Wanted};
use std::alloc::Global;

/// Whether the word stands in `info`, between its commas.
fn info_has(word: &str, info: Option<&Text>) -> bool
    ensures { result ≡ info_has word.now (option_copied info.entry) }
{
    match info {
        Some(info) => lists_word(word, info.as_str()),
        None => false,
    }
}

fn lists_word(word: &str, info: &str) -> bool
    ensures { result ≡ list_any (bytes_eq word.now) (slice_split is_comma info.now) }
{
    info.split(',').any(|part| word == part)
}

/// Whether the number of users is asked for.
pub(crate) fn wants_users(info: Option<&Text>) -> bool
    ensures { result ≡ wants_users (option_copied info.entry) }
{
    info_has("user_count", info)
}

/// Whether the number of subscriptions is asked for.
fn wants_subs(info: Option<&Text>) -> bool
    ensures { result ≡ wants_subs (option_copied info.entry) }
{
    info_has("subscription_count", info)
}

/// Whether the latest event is asked for.
pub(crate) fn wants_cache(info: Option<&Text>) -> bool
    ensures { result ≡ wants_cache (option_copied info.entry) }
{
    info_has("cache", info)
}

/// The counts that are told of a channel: users are counted on presence channels alone, and nothing on a user's own channel.
pub(crate) fn wanted_of(info: Option<&Text>, channel: &str) -> Wanted
    ensures { result ≡ wanted_of (option_copied info.entry) channel.now }
{
    Wanted {
        users: wants_users(info) && is_presence(channel),
        subs: wants_subs(info) && !is_user_channel(channel),
    }
}

/// Whether an event asks for counts.
pub(crate) fn has_info(triggers: &[Trigger]) -> bool
    ensures { result ≡ has_info triggers.now }
{
    triggers.iter().any(|trigger| trigger.info.is_some())
}

/// The channels of the events, with what is told of each.
pub(crate) fn counted(alloc: Global, triggers: &[Trigger]) -> Result<CountedList, Memory>
    ensures { IfOk result (λ cs. cs ≡ counted triggers.now) }
{
    let mut list = CountedList::new(alloc);
    for trigger in triggers {
        count_channels(alloc, trigger, &mut list)?;
    }
    Ok(list)
}

/// Adds the event's channels.
fn count_channels(alloc: Global, trigger: &Trigger, list: &mut CountedList) -> Result<(), Memory>
    ensures { OnOk result (list.new ≡ list.old ++ map (counted_in trigger.now) trigger.now.channels) }
{
    for channel in trigger.channels.as_slice() {
        let wanted = wanted_of(trigger.info.as_ref(), channel.as_str());
        let channel = channel.copy(alloc)?;
        list.push(Counted { channel, wanted })?;
    }
    Ok(())
}

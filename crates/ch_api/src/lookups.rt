//! What is done with an authorized request that asks for channels or users, or closes a user's connections (Pusher Channels
//! documentation, HTTP API, "GET channels", "GET channel", "GET users" and "POST terminate user connections").
ghost use Rattle.std.specs.Prelude.{◌≡◌, ◌∷◌, [], codes, map, IfOk};
ghost use Rattle.std.specs.List.{range_with_len};
ghost use Rattle.std.specs.Option.{option_copied};
ghost use Rattle.ch_config.specs.Config.{IsConfig};
ghost use Rattle.ch_history.specs.ChannelName.{begins};
ghost use Rattle.ch_history.specs.Placement.{shard_of};
ghost use Rattle.ch_protocol.specs.declared.ask.Ask.TheVariants.{Chan, User};
ghost use Rattle.ch_requests.specs.Plans.{asks_for, lists_channels, looks_at, lists_users, terminates, text_or_empty};

use crate::counts::{wanted_of, wants_cache, wants_users};
use crate::refusals::refused;
use ch_base::{ChanCall, Memory, Text, UserCall};
use ch_config::Config;
use ch_names::{is_cache, is_good_name, is_presence, is_user_id, shard_of};
use ch_protocol::{Ask, AskList};
use ch_requests::{Plan, Planned, ReplyForm, Wanted};
use std::alloc::Global;

/// What the names of all presence channels begin with, those that keep their latest event among them.
const PRESENCE_PREFIX: &[u8] = b"presence-";

/// The channels with a prefix, of each channel shard. Users are counted where all of them have members.
pub(crate) fn list_channels(
    alloc: Global,
    config: &Config,
    prefix: Option<&Text>,
    info: Option<&Text>,
) -> Result<Planned, Memory>
    ensures { IfOk result (λ p. p ≡ lists_channels config.now (text_or_empty (option_copied prefix.entry)) (option_copied info.entry)) }
{
    let prefix = text_or_empty(prefix);
    let users = wants_users(info);
    if users && !begins_as_presence(prefix) {
        return refused(alloc, 400);
    }
    Ok(Planned::Ask(Plan {
        asks: names_asks(alloc, config.chan_shards, prefix)?,
        form: ReplyForm::Channels(Wanted { users, subs: false }),
    }))
}

/// Whether the text begins as the names of presence channels do.
fn begins_as_presence(text: &str) -> bool
    ensures { result ≡ begins (codes "presence-") text.now }
{
    text.as_bytes().starts_with(PRESENCE_PREFIX)
}

fn text_or_empty(text: Option<&Text>) -> &str
    ensures { result.now ≡ text_or_empty (option_copied text.entry) }
{
    match text {
        Some(text) => text.as_str(),
        None => "",
    }
}

/// The names with the prefix, of each of so many channel shards.
fn names_asks(alloc: Global, shards: u64, prefix: &str) -> Result<AskList, Memory>
    ensures { IfOk result (λ asks. asks ≡ map (λ k. Chan k (ChanCall.Names prefix.now)) (range_with_len 0 shards)) }
{
    let mut asks = AskList::new(alloc);
    for shard in 0..shards {
        let prefix = Text::of(alloc, prefix)?;
        asks.push(Ask::Chan {
            shard,
            call: ChanCall::Names { prefix },
        })?;
    }
    Ok(asks)
}

/// Whether a channel has a subscription, its counts, and its latest event where that is asked for.
pub(crate) fn look_at(
    alloc: Global,
    config: &Config,
    name: &Text,
    info: Option<&Text>,
    now: u64,
) -> Result<Planned, Memory>
    requires { IsConfig config.now }
    ensures { IfOk result (λ p. p ≡ looks_at config.now now name.now (option_copied info.entry)) }
{
    if !is_good_name(name.as_str()) {
        return refused(alloc, 400);
    }
    if wants_users(info) && !is_presence(name.as_str()) {
        return refused(alloc, 400);
    }
    let cache = wants_cache(info);
    if cache && !is_cache(name.as_str()) {
        return refused(alloc, 400);
    }
    let counts = wanted_of(info, name.as_str());
    let call = ChanCall::Look {
        channel: name.copy(alloc)?,
        at: now,
    };
    let form = ReplyForm::Channel { counts, cache };
    ask_channel(alloc, config, name, call, form)
}

/// The users of a presence channel.
pub(crate) fn list_users(alloc: Global, config: &Config, name: &Text) -> Result<Planned, Memory>
    requires { IsConfig config.now }
    ensures { IfOk result (λ p. p ≡ lists_users config.now name.now) }
{
    if !is_good_name(name.as_str()) || !is_presence(name.as_str()) {
        return refused(alloc, 400);
    }
    let call = ChanCall::Users {
        channel: name.copy(alloc)?,
    };
    ask_channel(alloc, config, name, call, ReplyForm::Users)
}

/// One call on the shard of the channel.
fn ask_channel(
    alloc: Global,
    config: &Config,
    name: &Text,
    call: ChanCall,
    form: ReplyForm,
) -> Result<Planned, Memory>
    requires { IsConfig config.now }
    ensures { IfOk result (λ p. p ≡ asks_for (Chan (shard_of name.now config.now.chan_shards) call ∷ []) form) }
{
    let shard = shard_of(name.as_str(), config.chan_shards);
    ask_once(alloc, Ask::Chan { shard, call }, form)
}

/// The user's connections are closed.
pub(crate) fn terminate(
    alloc: Global,
    config: &Config,
    id: &Text,
    now: u64,
) -> Result<Planned, Memory>
    requires { IsConfig config.now }
    ensures { IfOk result (λ p. p ≡ terminates config.now now id.now) }
{
    if !is_user_id(id.as_str()) {
        return refused(alloc, 400);
    }
    let ask = Ask::User {
        shard: shard_of(id.as_str(), config.user_shards),
        call: UserCall::Terminate {
            user: id.copy(alloc)?,
            at: now,
        },
    };
    ask_once(alloc, ask, ReplyForm::Empty)
}

/// One ask.
fn ask_once(alloc: Global, ask: Ask, form: ReplyForm) -> Result<Planned, Memory>
    ensures { IfOk result (λ p. p ≡ asks_for (ask ∷ []) form) }
{
    let mut asks = AskList::new(alloc);
    asks.push(ask)?;
    Ok(Planned::Ask(Plan { asks, form }))
}

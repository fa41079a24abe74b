//! The calls that publish events (Pusher Channels documentation, HTTP API, "POST event" and "POST batch events").
ghost use Rattle.std.specs.Prelude.{◌≡◌, ◌++◌, map, IfOk, OnOk};
ghost use Rattle.std.specs.Option.{option_copied};
ghost use Rattle.ch_config.specs.Config.{IsConfig};
ghost use Rattle.ch_requests.specs.Plans.{here_of, excepted, sends_to, publishes_on, event_ask, event_asks};

use ch_base::{ChanCall, Memory, Text, UserCall};
use ch_config::Config;
use ch_names::{SocketId, shard_of, socket_number, user_channel};
use ch_protocol::{Ask, AskList};
use ch_requests::Trigger;
use std::alloc::Global;

/// One ask for each channel of each event, in order. The server started at the second `start`.
pub(crate) fn event_asks(
    alloc: Global,
    config: &Config,
    start: u64,
    triggers: &[Trigger],
    now: u64,
) -> Result<AskList, Memory>
    requires { IsConfig config.now }
    ensures { IfOk result (λ asks. asks ≡ event_asks config.now start now triggers.now) }
{
    let mut asks = AskList::new(alloc);
    for trigger in triggers {
        push_asks(alloc, config, start, trigger, now, &mut asks)?;
    }
    Ok(asks)
}

/// Adds an ask for each channel of the event.
fn push_asks(
    alloc: Global,
    config: &Config,
    start: u64,
    trigger: &Trigger,
    now: u64,
    asks: &mut AskList,
) -> Result<(), Memory>
    requires { IsConfig config.now }
    ensures { OnOk result (asks.new ≡ asks.old ++ map (event_ask config.now start now trigger.now) trigger.now.channels) }
{
    for channel in trigger.channels.as_slice() {
        let ask = event_ask(alloc, config, start, trigger, channel, now)?;
        asks.push(ask)?;
    }
    Ok(())
}

/// The ask that brings the event to the channel, or to the user whose own channel it is.
fn event_ask(
    alloc: Global,
    config: &Config,
    start: u64,
    trigger: &Trigger,
    channel: &Text,
    now: u64,
) -> Result<Ask, Memory>
    requires { IsConfig config.now }
    ensures { IfOk result (λ ask. ask ≡ event_ask config.now start now trigger.now channel.now) }
{
    match user_channel(channel.as_str()) {
        Some(id) => send_to(alloc, config, trigger, id, now),
        None => publish_on(alloc, config, start, trigger, channel, now),
    }
}

/// An event for one user.
fn send_to(
    alloc: Global,
    config: &Config,
    trigger: &Trigger,
    id: &str,
    now: u64,
) -> Result<Ask, Memory>
    requires { IsConfig config.now }
    ensures { IfOk result (λ ask. ask ≡ sends_to config.now trigger.now id.now now) }
{
    Ok(Ask::User {
        shard: shard_of(id, config.user_shards),
        call: UserCall::SendTo {
            user: Text::of(alloc, id)?,
            event: trigger.event.copy(alloc)?,
            body: trigger.body.copy(alloc)?,
            at: now,
        },
    })
}

/// An event on a channel.
fn publish_on(
    alloc: Global,
    config: &Config,
    start: u64,
    trigger: &Trigger,
    channel: &Text,
    now: u64,
) -> Result<Ask, Memory>
    requires { IsConfig config.now }
    ensures { IfOk result (λ ask. ask ≡ publishes_on config.now start trigger.now channel.now now) }
{
    Ok(Ask::Chan {
        shard: shard_of(channel.as_str(), config.chan_shards),
        call: ChanCall::Publish {
            channel: channel.copy(alloc)?,
            event: trigger.event.copy(alloc)?,
            body: trigger.body.copy(alloc)?,
            except: excepted(start, trigger.socket_id.as_ref()),
            at: now,
        },
    })
}

/// The socket of this server that doesn't get the event.
fn excepted(start: u64, id: Option<&Text>) -> Option<u64>
    ensures { result ≡ excepted start (option_copied id.entry) }
{
    match id {
        Some(id) => here_of(socket_number(id.as_str(), start)),
        None => None,
    }
}

fn here_of(id: SocketId) -> Option<u64>
    ensures { result ≡ here_of id }
{
    match id {
        SocketId::Here(number) => Some(number),
        SocketId::Stranger => None,
        SocketId::Bad => None,
    }
}

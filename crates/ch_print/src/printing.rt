ghost use Rattle.std.specs.Prelude.{◌≡◌, IfOk, string_bytes};
ghost use Rattle.ch_base.specs.Printed.{established_data, connection_established, error, subscription_succeeded, member_added, member_removed, event_on, signin_success, presence_word, watchlist_change, watchlist_events, printed};

use crate::error_texts::error_text;
use crate::escape::quoted;
use crate::events::{bare_event, channel_event, connection_event, member_event};
use crate::presence::{arrival, departure, roster};
use ch_base::{Frame, Member, Memory, Text, UNAUTHORIZED};
use std::alloc::Global;

/// The text of a frame, of a server that started at the second `start`.
pub fn print(alloc: Global, frame: &Frame, start: u64) -> Result<Text, Memory>
    ensures { IfOk result (λ t. t ≡ printed frame.now start) }
{
    let text = frame_text(alloc, frame, start)?;
    Ok(Text::from_string(text))
}

fn frame_text(alloc: Global, frame: &Frame, start: u64) -> Result<String, Memory>
    ensures { IfOk result (λ t. string_bytes t ≡ printed frame.now start) }
{
    match frame {
        Frame::Opened { number } => opened(alloc, *number, start),
        Frame::Error { code } => error(alloc, *code),
        Frame::Ping => connection_event(alloc, "pusher:ping", "{}"),
        Frame::Pong => connection_event(alloc, "pusher:pong", "{}"),
        Frame::Succeeded { channel } => subscribed(alloc, channel.as_str(), "{}"),
        Frame::Present { channel, rows } => {
            let rows = roster(alloc, rows.as_slice())?;
            subscribed(alloc, channel.as_str(), rows.as_str())
        }
        Frame::Added { channel, member } => added(alloc, channel.as_str(), member),
        Frame::Removed { channel, user_id } => removed(alloc, channel.as_str(), user_id.as_str()),
        Frame::Event {
            channel,
            event,
            body,
            user_id,
        } => event_on(alloc, channel, event, body, user_id),
        Frame::Miss { channel } => bare_event(alloc, "pusher:cache_miss", channel.as_str()),
        Frame::SignedIn { user_data } => signed_in(alloc, user_data.as_str()),
        Frame::Watch { online, user_id } => watch(alloc, *online, user_id.as_str()),
        Frame::Kill => error(alloc, UNAUTHORIZED),
    }
}

fn opened(alloc: Global, number: u64, start: u64) -> Result<String, Memory>
    ensures { IfOk result (λ t. string_bytes t ≡ connection_established number start) }
{
    let body = greeting(alloc, number, start)?;
    let body = quoted(alloc, body.as_str())?;
    connection_event(alloc, "pusher:connection_established", body.as_str())
}

fn greeting(alloc: Global, number: u64, start: u64) -> Result<String, Memory>
    ensures { IfOk result (λ t. string_bytes t ≡ established_data number start) }
{
    let text = format!(in alloc;
        "{{\"socket_id\":\"{start}.{number}\",\"activity_timeout\":120}}"
    )?;
    Ok(text)
}

fn error(alloc: Global, code: u16) -> Result<String, Memory>
    ensures { IfOk result (λ t. string_bytes t ≡ error code) }
{
    let message = quoted(alloc, error_text(code))?;
    let message = message.as_str();
    let body = format!(in alloc; "{{\"message\":{message},\"code\":{code}}}")?;
    connection_event(alloc, "pusher:error", body.as_str())
}

fn subscribed(alloc: Global, channel: &str, body: &str) -> Result<String, Memory>
    ensures { IfOk result (λ t. string_bytes t ≡ subscription_succeeded channel.now body.now) }
{
    let body = quoted(alloc, body)?;
    channel_event(
        alloc,
        "pusher_internal:subscription_succeeded",
        channel,
        body.as_str(),
    )
}

fn added(alloc: Global, channel: &str, member: &Member) -> Result<String, Memory>
    ensures { IfOk result (λ t. string_bytes t ≡ member_added channel.now member.now) }
{
    let body = arrival(alloc, member)?;
    let body = quoted(alloc, body.as_str())?;
    channel_event(
        alloc,
        "pusher_internal:member_added",
        channel,
        body.as_str(),
    )
}

fn removed(alloc: Global, channel: &str, user_id: &str) -> Result<String, Memory>
    ensures { IfOk result (λ t. string_bytes t ≡ member_removed channel.now user_id.now) }
{
    let body = departure(alloc, user_id)?;
    let body = quoted(alloc, body.as_str())?;
    channel_event(
        alloc,
        "pusher_internal:member_removed",
        channel,
        body.as_str(),
    )
}

fn event_on(
    alloc: Global,
    channel: &Text,
    event: &Text,
    body: &Text,
    user_id: &Option<Text>,
) -> Result<String, Memory>
    ensures { IfOk result (λ t. string_bytes t ≡ event_on channel.now event.now body.now user_id.now) }
{
    let (event, channel, body) = (event.as_str(), channel.as_str(), body.as_str());
    match user_id {
        Some(user_id) => member_event(alloc, event, channel, body, user_id.as_str()),
        None => channel_event(alloc, event, channel, body),
    }
}

fn signed_in(alloc: Global, user_data: &str) -> Result<String, Memory>
    ensures { IfOk result (λ t. string_bytes t ≡ signin_success user_data.now) }
{
    let user_data = quoted(alloc, user_data)?;
    let user_data = user_data.as_str();
    let body = format!(in alloc; "{{\"user_data\":{user_data}}}")?;
    connection_event(alloc, "pusher:signin_success", body.as_str())
}

fn watch(alloc: Global, online: bool, user_id: &str) -> Result<String, Memory>
    ensures { IfOk result (λ t. string_bytes t ≡ watchlist_events online user_id.now) }
{
    let body = change(alloc, online, user_id)?;
    connection_event(alloc, "pusher_internal:watchlist_events", body.as_str())
}

fn change(alloc: Global, online: bool, user_id: &str) -> Result<String, Memory>
    ensures { IfOk result (λ t. string_bytes t ≡ watchlist_change online user_id.now) }
{
    let name = quoted(alloc, presence_word(online))?;
    let name = name.as_str();
    let user_id = quoted(alloc, user_id)?;
    let user_id = user_id.as_str();
    let text = format!(in alloc; "{{\"events\":[{{\"name\":{name},\"user_ids\":[{user_id}]}}]}}")?;
    Ok(text)
}

fn presence_word(online: bool) -> &'static str
    ensures { result.now ≡ presence_word online }
{
    if online { "online" } else { "offline" }
}

ghost use Rattle.std.specs.Prelude.{◌≡◌, IfOk, string_bytes};
ghost use Rattle.ch_webhooks.specs.Events.{of_channel, of_member, is_string, data_text, socket_id, sender_text, of_client, event_text};

use ch_base::{Hook, Memory, Text};
use ch_json::quoted;
use std::alloc::Global;

/// The text of a webhook event, of a server that started at the second `start`.
pub fn event_text(alloc: Global, start: u64, hook: &Hook) -> Result<String, Memory>
    ensures { IfOk result (λ t. string_bytes t ≡ event_text start hook.now) }
{
    match hook {
        Hook::Occupied { channel } => of_channel(alloc, "channel_occupied", channel),
        Hook::Vacated { channel } => of_channel(alloc, "channel_vacated", channel),
        Hook::Added { channel, user_id } => of_member(alloc, "member_added", channel, user_id),
        Hook::Removed { channel, user_id } => of_member(alloc, "member_removed", channel, user_id),
        Hook::Client {
            channel,
            event,
            body,
            socket,
            user_id,
        } => {
            let from = socket_id(alloc, start, *socket)?;
            let sender = sender_text(alloc, user_id)?;
            let origin = Origin {
                socket_id: from.as_str(),
                sender: sender.as_str(),
            };
            of_client(alloc, channel, event, body, origin)
        }
        Hook::Miss { channel } => of_channel(alloc, "cache_miss", channel),
    }
}

/// Who sent a client event: the socket's id, and the member that tells its user id, or nothing.
#[derive(Clone, Copy)]
struct Origin<'a> {
    socket_id: &'a str,
    sender: &'a str,
}

/// An event of a channel.
fn of_channel(alloc: Global, name: &str, channel: &Text) -> Result<String, Memory>
    ensures { IfOk result (λ t. string_bytes t ≡ of_channel name.now channel.now) }
{
    let channel = quoted(alloc, channel.as_str())?;
    let channel = channel.as_str();
    let text = format!(in alloc; "{{\"name\":\"{name}\",\"channel\":{channel}}}")?;
    Ok(text)
}

/// An event of a member of a presence channel.
fn of_member(alloc: Global, name: &str, channel: &Text, user_id: &Text) -> Result<String, Memory>
    ensures { IfOk result (λ t. string_bytes t ≡ of_member name.now channel.now user_id.now) }
{
    let channel = quoted(alloc, channel.as_str())?;
    let channel = channel.as_str();
    let user_id = quoted(alloc, user_id.as_str())?;
    let user_id = user_id.as_str();
    let text = format!(in alloc;
        "{{\"name\":\"{name}\",\"channel\":{channel},\"user_id\":{user_id}}}"
    )?;
    Ok(text)
}

/// An event that a client sent.
fn of_client(
    alloc: Global,
    channel: &Text,
    event: &Text,
    body: &Text,
    origin: Origin<'_>,
) -> Result<String, Memory>
    ensures { IfOk result (λ t. string_bytes t ≡ of_client channel.now event.now body.now origin.entry.socket_id.now origin.entry.sender.now) }
{
    let channel = quoted(alloc, channel.as_str())?;
    let channel = channel.as_str();
    let event = quoted(alloc, event.as_str())?;
    let event = event.as_str();
    let data = data_text(alloc, body)?;
    let data = data.as_str();
    let socket_id = origin.socket_id;
    let sender = origin.sender;
    let text = format!(in alloc;
        "{{\"name\":\"client_event\",\"channel\":{channel},\"event\":{event},\"data\":{data},\"socket_id\":\"{socket_id}\"{sender}}}"
    )?;
    Ok(text)
}

/// The data of a client event, as a JSON string.
fn data_text(alloc: Global, body: &Text) -> Result<String, Memory>
    ensures { IfOk result (λ t. string_bytes t ≡ data_text body.now) }
{
    if is_string(body.as_str().as_bytes()) {
        let text = String::from_str(alloc, body.as_str())?;
        return Ok(text);
    }
    quoted(alloc, body.as_str())
}

/// Whether a JSON text is a string: it stands between quotes.
fn is_string(text: &[u8]) -> bool
    ensures { result ≡ is_string text.now }
{
    text.len() > 1 && text[0] == b'"' && text[text.len() - 1] == b'"'
}

/// The id of a socket.
fn socket_id(alloc: Global, start: u64, socket: u64) -> Result<String, Memory>
    ensures { IfOk result (λ t. string_bytes t ≡ socket_id start socket) }
{
    let text = format!(in alloc; "{start}.{socket}")?;
    Ok(text)
}

/// The member that tells the sender's user id, or nothing where it isn't known.
fn sender_text(alloc: Global, user_id: &Option<Text>) -> Result<String, Memory>
    ensures { IfOk result (λ t. string_bytes t ≡ sender_text user_id.now) }
{
    match user_id {
        Some(user_id) => {
            let user_id = quoted(alloc, user_id.as_str())?;
            let user_id = user_id.as_str();
            let text = format!(in alloc; ",\"user_id\":{user_id}")?;
            Ok(text)
        }
        None => Ok(String::new(alloc)),
    }
}

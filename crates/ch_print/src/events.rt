//! Events as JSON objects.
ghost use Rattle.std.specs.Prelude.{◌≡◌, IfOk, string_bytes};
ghost use Rattle.ch_base.specs.Events.{connection_event, channel_event, member_event, bare_event};

use crate::escape::quoted;
use ch_base::Memory;
use std::alloc::Global;

/// An event for the connection itself; `body`, the member `data`, is a JSON text.
pub fn connection_event(alloc: Global, event: &str, body: &str) -> Result<String, Memory>
    ensures { IfOk result (λ t. string_bytes t ≡ connection_event event.now body.now) }
{
    let event = quoted(alloc, event)?;
    let event = event.as_str();
    let text = format!(in alloc; "{{\"event\":{event},\"data\":{body}}}")?;
    Ok(text)
}

/// An event on a channel; `body`, the member `data`, is a JSON text.
pub fn channel_event(
    alloc: Global,
    event: &str,
    channel: &str,
    body: &str,
) -> Result<String, Memory>
    ensures { IfOk result (λ t. string_bytes t ≡ channel_event event.now channel.now body.now) }
{
    let event = quoted(alloc, event)?;
    let event = event.as_str();
    let channel = quoted(alloc, channel)?;
    let channel = channel.as_str();
    let text = format!(in alloc; "{{\"event\":{event},\"channel\":{channel},\"data\":{body}}}")?;
    Ok(text)
}

/// An event from a member of a presence channel, with the member's user id; `body`, the member `data`, is a JSON text.
pub fn member_event(
    alloc: Global,
    event: &str,
    channel: &str,
    body: &str,
    user_id: &str,
) -> Result<String, Memory>
    ensures { IfOk result (λ t. string_bytes t ≡ member_event event.now channel.now body.now user_id.now) }
{
    let event = quoted(alloc, event)?;
    let event = event.as_str();
    let channel = quoted(alloc, channel)?;
    let channel = channel.as_str();
    let user_id = quoted(alloc, user_id)?;
    let user_id = user_id.as_str();
    let text = format!(in alloc;
        "{{\"event\":{event},\"channel\":{channel},\"data\":{body},\"user_id\":{user_id}}}"
    )?;
    Ok(text)
}

/// An event on a channel that has no body.
pub fn bare_event(alloc: Global, event: &str, channel: &str) -> Result<String, Memory>
    ensures { IfOk result (λ t. string_bytes t ≡ bare_event event.now channel.now) }
{
    let event = quoted(alloc, event)?;
    let event = event.as_str();
    let channel = quoted(alloc, channel)?;
    let channel = channel.as_str();
    let text = format!(in alloc; "{{\"event\":{event},\"channel\":{channel}}}")?;
    Ok(text)
}

//! The event of one object.
ghost use Rattle.std.specs.Prelude.{◌≡◌, IfOk};
ghost use Rattle.ch_base.specs.JsonTree.{Members};
ghost use Rattle.ch_base.specs.ObjectMembers.{AreDistinct};
ghost use Rattle.ch_json.specs.NodeOf.{IsObject};
ghost use Rattle.ch_members.specs.Readings.{Gives, IsObjectOf};
ghost use Rattle.ch_requests.specs.Triggers.{IsEvent, HasChannel, HasEither};
ghost use Rattle.ch_triggers.specs.Bodies.{HasEventName, HasSocketId, AreThese, is_socket_or_none};

use crate::channels::{either_channels, single_channel};
use crate::content::content_member;
use crate::names::is_socket_id;
use ch_base::{Memory, Text, TextList};
use ch_json::{Doc, Node};
use ch_members::{is_plain_object, optional_member, string_member};
use ch_names::is_event_name;
use ch_requests::Trigger;
use std::alloc::Global;

/// The event of an object whose channels either member names.
pub fn either_event(
    alloc: Global,
    text: &str,
    doc: &Doc,
    node: Node,
) -> Result<Option<Trigger>, Memory>
    requires { IsObject text.now doc.now node }
    ensures { (ms : Members) → IsObjectOf text.now doc.now node ms → IfOk result (Gives (IsEvent HasEither text.now ms)) }
{
    if !is_plain_object(alloc, text, doc, node)? {
        return Ok(None);
    }
    match either_channels(alloc, text, doc, node)? {
        Some(channels) => event_on(alloc, text, doc, node, channels),
        None => Ok(None),
    }
}

/// The event of an object whose channel the member `channel` names.
pub fn single_event(
    alloc: Global,
    text: &str,
    doc: &Doc,
    node: Node,
) -> Result<Option<Trigger>, Memory>
    requires { IsObject text.now doc.now node }
    ensures { (ms : Members) → IsObjectOf text.now doc.now node ms → IfOk result (Gives (IsEvent HasChannel text.now ms)) }
{
    if !is_plain_object(alloc, text, doc, node)? {
        return Ok(None);
    }
    match single_channel(alloc, text, doc, node)? {
        Some(channels) => event_on(alloc, text, doc, node, channels),
        None => Ok(None),
    }
}

/// The event of an object, on these channels.
fn event_on(
    alloc: Global,
    text: &str,
    doc: &Doc,
    node: Node,
    channels: TextList,
) -> Result<Option<Trigger>, Memory>
    requires { IsObject text.now doc.now node }
    ensures { (ms : Members) → IsObjectOf text.now doc.now node ms → AreDistinct text.now ms →
        IfOk result (Gives (IsEvent (AreThese channels) text.now ms)) }
{
    let Some(event) = event_member(alloc, text, doc, node)? else {
        return Ok(None);
    };
    let Some(content) = content_member(alloc, text, doc, node)? else {
        return Ok(None);
    };
    let Some(socket_id) = socket_member(alloc, text, doc, node)? else {
        return Ok(None);
    };
    let Some(info) = optional_member(alloc, text, doc, node, "info")? else {
        return Ok(None);
    };
    Ok(Some(Trigger {
        event,
        body: content.body,
        size: content.size,
        channels,
        socket_id,
        info,
    }))
}

/// The event name that is the member `name`.
fn event_member(alloc: Global, text: &str, doc: &Doc, node: Node) -> Result<Option<Text>, Memory>
    requires { IsObject text.now doc.now node }
    ensures { (ms : Members) → IsObjectOf text.now doc.now node ms → IfOk result (Gives (HasEventName text.now ms)) }
{
    let Some(name) = string_member(alloc, text, doc, node, "name")? else {
        return Ok(None);
    };
    if is_event_name(name.as_str()) {
        Ok(Some(name))
    } else {
        Ok(None)
    }
}

/// The socket id that is the member `socket_id`, which may be left out.
fn socket_member(
    alloc: Global,
    text: &str,
    doc: &Doc,
    node: Node,
) -> Result<Option<Option<Text>>, Memory>
    requires { IsObject text.now doc.now node }
    ensures { (ms : Members) → IsObjectOf text.now doc.now node ms → IfOk result (Gives (HasSocketId text.now ms)) }
{
    let Some(socket_id) = optional_member(alloc, text, doc, node, "socket_id")? else {
        return Ok(None);
    };
    if is_socket_or_none(&socket_id) {
        Ok(Some(socket_id))
    } else {
        Ok(None)
    }
}

fn is_socket_or_none(socket_id: &Option<Text>) -> bool
    ensures { result ≡ is_socket_or_none socket_id.now }
{
    match socket_id {
        Some(id) => is_socket_id(id.as_str()),
        None => true,
    }
}

//! The messages of each shape.
ghost use Rattle.std.specs.Prelude.{IfOk};
ghost use Rattle.ch_base.specs.JsonTree.{Members};
ghost use Rattle.ch_json.specs.NodeOf.{IsObject};
ghost use Rattle.ch_protocol.specs.ClientMessages.{SubscribeShape, UnsubscribeShape, SignInShape, SayShape};
ghost use Rattle.ch_members.specs.Readings.{Gives, IsObjectOf};

use ch_base::{Memory, Text};
use ch_json::{Doc, Node};
use ch_members::{object_member, optional_member, spelled_member, string_member};
use ch_protocol::ClientMessage;
use std::alloc::Global;

/// A subscribe: `data` with a channel, and what authorizes it and who joins, where they are given.
pub fn subscribe(
    alloc: Global,
    text: &str,
    doc: &Doc,
    node: Node,
) -> Result<Option<ClientMessage>, Memory>
    requires { IsObject text.now doc.now node }
    ensures { (ms : Members) → IsObjectOf text.now doc.now node ms → IfOk result (Gives (SubscribeShape text.now ms)) }
{
    let Some(inner) = object_member(text, doc, node, "data") else {
        return Ok(None);
    };
    let Some(channel) = string_member(alloc, text, doc, inner, "channel")? else {
        return Ok(None);
    };
    let Some(auth) = optional_member(alloc, text, doc, inner, "auth")? else {
        return Ok(None);
    };
    let Some(channel_data) = optional_member(alloc, text, doc, inner, "channel_data")? else {
        return Ok(None);
    };
    Ok(Some(ClientMessage::Subscribe {
        channel,
        auth,
        channel_data,
    }))
}

/// An unsubscribe: `data` with a channel.
pub fn unsubscribe(
    alloc: Global,
    text: &str,
    doc: &Doc,
    node: Node,
) -> Result<Option<ClientMessage>, Memory>
    requires { IsObject text.now doc.now node }
    ensures { (ms : Members) → IsObjectOf text.now doc.now node ms → IfOk result (Gives (UnsubscribeShape text.now ms)) }
{
    let Some(inner) = object_member(text, doc, node, "data") else {
        return Ok(None);
    };
    let Some(channel) = string_member(alloc, text, doc, inner, "channel")? else {
        return Ok(None);
    };
    Ok(Some(ClientMessage::Unsubscribe { channel }))
}

/// A sign-in: `data` with the user's data and what authorizes them.
pub fn sign_in(
    alloc: Global,
    text: &str,
    doc: &Doc,
    node: Node,
) -> Result<Option<ClientMessage>, Memory>
    requires { IsObject text.now doc.now node }
    ensures { (ms : Members) → IsObjectOf text.now doc.now node ms → IfOk result (Gives (SignInShape text.now ms)) }
{
    let Some(inner) = object_member(text, doc, node, "data") else {
        return Ok(None);
    };
    let Some(auth) = string_member(alloc, text, doc, inner, "auth")? else {
        return Ok(None);
    };
    let Some(user_data) = string_member(alloc, text, doc, inner, "user_data")? else {
        return Ok(None);
    };
    Ok(Some(ClientMessage::SignIn { auth, user_data }))
}

/// A client event of this name: a channel, and any `data` as it is spelled.
pub fn say(
    alloc: Global,
    text: &str,
    doc: &Doc,
    node: Node,
    event: Text,
) -> Result<Option<ClientMessage>, Memory>
    requires { IsObject text.now doc.now node }
    ensures { (ms : Members) → IsObjectOf text.now doc.now node ms → IfOk result (Gives (SayShape event text.now ms)) }
{
    let Some(channel) = string_member(alloc, text, doc, node, "channel")? else {
        return Ok(None);
    };
    let Some(body) = spelled_member(alloc, text, doc, node, "data")? else {
        return Ok(None);
    };
    Ok(Some(ClientMessage::Say {
        channel,
        event,
        body,
    }))
}

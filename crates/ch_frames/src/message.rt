//! What a client's text says.
ghost use Rattle.std.specs.Prelude.{◌≡◌, IfOk, IfErr};
ghost use Rattle.ch_base.specs.JsonTree.{Members};
ghost use Rattle.ch_json.specs.NodeOf.{IsObject};
ghost use Rattle.ch_protocol.specs.ClientMessages.{Says, SaysObject, SaysEvent, event_of};
ghost use Rattle.ch_members.specs.Readings.{IsObjectOf, IsObjectDoc};
ghost use Rattle.ch_frames.specs.Verdicts.{HasVerdict, answer_of_shape};
ghost use Rattle.ch_frames.specs.Checked.{IsGoodMessage, IsRefusal};

use crate::checks::fault_of;
use crate::client_event::{Event, event_of};
use crate::refused::Refused;
use crate::shapes::{say, sign_in, subscribe, unsubscribe};
use ch_base::{MALFORMED_MESSAGE, MESSAGE_TOO_LONG, Text, UNKNOWN_EVENT};
use ch_json::{Doc, Node};
use ch_members::{object_of, string_member};
use ch_protocol::{ClientMessage, LONGEST_TEXT};
use std::alloc::Global;

/// The message of a client's text, or the code of its first fault (Pusher Channels protocol, "Events
/// that clients send" and "Client events").
///
/// The order of refusals: longer than `LONGEST_TEXT` is `MESSAGE_TOO_LONG`; no JSON object in which no name
/// stands twice, or without a string as its `event`, is `MALFORMED_MESSAGE`; an event that clients don't
/// send is `UNKNOWN_EVENT`; not the shape of the event is `MALFORMED_MESSAGE`; a channel that can't be
/// subscribed to is `INVALID_CHANNEL_NAME`; a client event with a name above `LONGEST_EVENT` or `data` above
/// `LONGEST_BODY` is `MESSAGE_TOO_LONG`.
pub fn parse(alloc: Global, text: &str) -> Result<ClientMessage, Refused>
    ensures says { HasVerdict (Says text.now) result }
    ensures code { IfErr result IsRefusal }
    ensures good { IfOk result IsGoodMessage }
{
    if text.len() > LONGEST_TEXT {
        return Err(Refused::Code(MESSAGE_TOO_LONG));
    }
    said(alloc, text)
}

fn said(alloc: Global, text: &str) -> Result<ClientMessage, Refused>
    ensures { HasVerdict (SaysObject text.now) result }
{
    match object_of(alloc, text)? {
        None => Err(Refused::Code(MALFORMED_MESSAGE)),
        Some(doc) => said_by_object(alloc, text, &doc),
    }
}

fn said_by_object(alloc: Global, text: &str, doc: &Doc) -> Result<ClientMessage, Refused>
    requires { IsObjectDoc text.now doc.now }
    ensures { HasVerdict (SaysObject text.now) result }
{
    let top = doc.top();
    match string_member(alloc, text, doc, top, "event")? {
        None => Err(Refused::Code(MALFORMED_MESSAGE)),
        Some(name) => said_by_event(alloc, text, doc, top, name),
    }
}

fn said_by_event(
    alloc: Global,
    text: &str,
    doc: &Doc,
    node: Node,
    name: Text,
) -> Result<ClientMessage, Refused>
    requires { IsObject text.now doc.now node }
    ensures { (ms : Members) → IsObjectOf text.now doc.now node ms →
        HasVerdict (SaysEvent (event_of name) name text.now ms) result }
{
    match event_of(name.as_str()) {
        Event::Ping => Ok(ClientMessage::Ping),
        Event::Pong => Ok(ClientMessage::Pong),
        Event::Subscribe => judged(subscribe(alloc, text, doc, node)?),
        Event::Unsubscribe => judged(unsubscribe(alloc, text, doc, node)?),
        Event::SignIn => judged(sign_in(alloc, text, doc, node)?),
        Event::Client => judged(say(alloc, text, doc, node, name)?),
        Event::Unknown => Err(Refused::Code(UNKNOWN_EVENT)),
    }
}

/// The message of the event's shape, where its names and lengths are good.
fn judged(shape: Option<ClientMessage>) -> Result<ClientMessage, Refused>
    ensures { result ≡ answer_of_shape shape }
{
    let Some(message) = shape else {
        return Err(Refused::Code(MALFORMED_MESSAGE));
    };
    match fault_of(&message) {
        Some(code) => Err(Refused::Code(code)),
        None => Ok(message),
    }
}

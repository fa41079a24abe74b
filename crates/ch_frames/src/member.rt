//! Who joins a presence channel.
ghost use Rattle.std.specs.Prelude.{◌≤◌, IfOk, length};
ghost use Rattle.ch_base.specs.JsonTree.{Tree, Members};
ghost use Rattle.ch_json.specs.NodeOf.{IsNode, IsObject};
ghost use Rattle.ch_history.specs.WellFormed.{IsMember};
ghost use Rattle.ch_protocol.specs.ChannelData.{IsIdOf, HasId, TellsMember};
ghost use Rattle.ch_members.specs.Readings.{Gives, IsValue, IsObjectOf, IsObjectDoc};
ghost use Rattle.ch_frames.specs.Ids.{Told};

use crate::ids::{good_id, whole_id};
use crate::refused::Unread;
use ch_base::{Member, Memory, Text};
use ch_json::{Doc, Form, Found, Node, unescape};
use ch_members::{object_of, spelled_member};
use ch_protocol::LONGEST_CHANNEL_DATA;
use std::alloc::Global;

/// The member whose data these are: a JSON object of at most `LONGEST_CHANNEL_DATA` bytes in which
/// no name stands twice, with a good user id, a string or a whole number as it is spelled, and any info (Pusher
/// Channels documentation, "Authorizing users", presence channels).
pub fn member_of(alloc: Global, channel_data: &str) -> Result<Member, Unread>
    ensures tells { Told (TellsMember channel_data.now) result }
    ensures good { IfOk result IsMember }
{
    if channel_data.len() > LONGEST_CHANNEL_DATA {
        return Err(Unread::Bad);
    }
    match object_of(alloc, channel_data)? {
        None => Err(Unread::Bad),
        Some(doc) => member_in(alloc, channel_data, &doc),
    }
}

fn member_in(alloc: Global, text: &str, doc: &Doc) -> Result<Member, Unread>
    requires short { length text.now ≤ LONGEST_CHANNEL_DATA }
    requires object { IsObjectDoc text.now doc.now }
    ensures { Told (TellsMember text.now) result }
{
    let top = doc.top();
    let Some(user_id) = id_member(alloc, text, doc, top)? else {
        return Err(Unread::Bad);
    };
    let Some(info) = spelled_member(alloc, text, doc, top, "user_info")? else {
        return Err(Unread::Bad);
    };
    Ok(Member { user_id, info })
}

/// The user id that is the member `user_id`.
fn id_member(alloc: Global, text: &str, doc: &Doc, node: Node) -> Result<Option<Text>, Memory>
    requires { IsObject text.now doc.now node }
    ensures { (ms : Members) → IsObjectOf text.now doc.now node ms → IfOk result (Gives (HasId text.now ms)) }
{
    match doc.find(text, node, "user_id") {
        Found::One(value) => id_at(alloc, text, doc, value),
        _ => Ok(None),
    }
}

/// The user id that a string or a whole number is.
fn id_at(alloc: Global, text: &str, doc: &Doc, node: Node) -> Result<Option<Text>, Memory>
    requires { IsValue text.now doc.now node }
    ensures { (v : Tree) → IsNode text.now doc.now node v → IfOk result (Gives (IsIdOf text.now v)) }
{
    match doc.form(node) {
        Form::Str => {
            let id = unescape(alloc, text, doc.span(node))?;
            Ok(good_id(id))
        }
        Form::Number => {
            let id = Text::of(alloc, doc.span(node).part(text))?;
            Ok(whole_id(id))
        }
        _ => Ok(None),
    }
}

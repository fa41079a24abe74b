//! Who signs in, and whom that user watches.
ghost use Rattle.std.specs.Prelude.{IfOk};
ghost use Rattle.ch_base.specs.JsonTree.{Tree, Items, Members};
ghost use Rattle.ch_base.specs.JsonParts.{items_of};
ghost use Rattle.ch_json.specs.NodeOf.{IsNode, IsObject};
ghost use Rattle.ch_protocol.specs.UserDataText.{AreIds, HasWatchlist, TellsUser};
ghost use Rattle.ch_members.specs.Readings.{Gives, IsValue, IsObjectOf, IsObjectDoc, IsArrayOf};
ghost use Rattle.ch_frames.specs.Ids.{Told, HasGoodId, IsWatchlist};
ghost use Rattle.ch_frames.specs.Checked.{IsGoodUser};

use crate::ids::{good_id, good_ids};
use crate::refused::Unread;
use ch_base::{Memory, Text, TextList};
use ch_json::{Doc, Form, Found, Node};
use ch_members::{Array, first_places, object_of, string_member, strings_of};
use ch_protocol::{LONGEST_WATCHLIST, UserData};
use std::alloc::Global;

/// The user whose data these are: a JSON object in which no name stands twice, with a good user id as
/// its `id`, and a `watchlist` of at most `LONGEST_WATCHLIST` good user ids, null or none (Pusher Channels
/// documentation, "User authentication" and "Watchlist events"). A repeated id counts at its first
/// place.
pub fn user_of(alloc: Global, user_data: &str) -> Result<UserData, Unread>
    ensures tells { Told (TellsUser user_data.now) result }
    ensures good { IfOk result IsGoodUser }
{
    match object_of(alloc, user_data)? {
        None => Err(Unread::Bad),
        Some(doc) => user_in(alloc, user_data, &doc),
    }
}

fn user_in(alloc: Global, text: &str, doc: &Doc) -> Result<UserData, Unread>
    requires { IsObjectDoc text.now doc.now }
    ensures { Told (TellsUser text.now) result }
{
    let top = doc.top();
    let Some(id) = id_member(alloc, text, doc, top, "id")? else {
        return Err(Unread::Bad);
    };
    let Some(watchlist) = watchlist_member(alloc, text, doc, top)? else {
        return Err(Unread::Bad);
    };
    Ok(UserData { id, watchlist })
}

/// The good user id that is the member of this name.
fn id_member(
    alloc: Global,
    text: &str,
    doc: &Doc,
    node: Node,
    name: &str,
) -> Result<Option<Text>, Memory>
    requires { IsObject text.now doc.now node }
    ensures { (ms : Members) → IsObjectOf text.now doc.now node ms → IfOk result (Gives (HasGoodId text.now ms name.now)) }
{
    match string_member(alloc, text, doc, node, name)? {
        Some(id) => Ok(good_id(id)),
        None => Ok(None),
    }
}

/// The watchlist, which may be left out.
fn watchlist_member(
    alloc: Global,
    text: &str,
    doc: &Doc,
    node: Node,
) -> Result<Option<TextList>, Memory>
    requires { IsObject text.now doc.now node }
    ensures { (ms : Members) → IsObjectOf text.now doc.now node ms → IfOk result (Gives (HasWatchlist text.now ms)) }
{
    match doc.find(text, node, "watchlist") {
        Found::Absent => Ok(Some(TextList::new(alloc))),
        Found::One(value) => watchlist_at(alloc, text, doc, value),
        Found::Many => Ok(None),
    }
}

fn watchlist_at(
    alloc: Global,
    text: &str,
    doc: &Doc,
    node: Node,
) -> Result<Option<TextList>, Memory>
    requires { IsValue text.now doc.now node }
    ensures { (v : Tree) → IsNode text.now doc.now node v → IfOk result (Gives (IsWatchlist text.now v)) }
{
    match doc.form(node) {
        Form::Null => Ok(Some(TextList::new(alloc))),
        Form::List(count) => {
            if count > LONGEST_WATCHLIST {
                return Ok(None);
            }
            let Some(ids) = ids_of(alloc, text, doc, Array { node, count })? else {
                return Ok(None);
            };
            let watchlist = first_places(alloc, ids.as_slice())?;
            Ok(Some(watchlist))
        }
        _ => Ok(None),
    }
}

/// The good user ids that the values of an array stand for.
fn ids_of(alloc: Global, text: &str, doc: &Doc, array: Array) -> Result<Option<TextList>, Memory>
    requires { (vs : Items) × IsArrayOf text.now doc.now array vs }
    ensures { (vs : Items) → IsArrayOf text.now doc.now array vs → IfOk result (Gives (AreIds text.now (items_of vs))) }
{
    match strings_of(alloc, text, doc, array)? {
        Some(ids) => Ok(good_ids(ids)),
        None => Ok(None),
    }
}

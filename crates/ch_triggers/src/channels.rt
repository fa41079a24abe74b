//! The channels of an event.
ghost use Rattle.std.specs.Prelude.{IfOk};
ghost use Rattle.ch_base.specs.JsonTree.{Items, Members};
ghost use Rattle.ch_json.specs.NodeOf.{IsObject};
ghost use Rattle.ch_members.specs.Readings.{Gives, IsObjectOf, IsArrayOf};
ghost use Rattle.ch_requests.specs.Triggers.{HasChannel, HasChannels, HasEither, IsChannelList};

use crate::names::are_subscribable;
use ch_base::{Memory, TextList};
use ch_json::{Doc, Node};
use ch_members::{Array, array_member, first_places, is_absent, string_member, strings_of};
use ch_names::is_subscribable;
use ch_requests::MOST_CHANNELS;
use std::alloc::Global;

/// The channels that exactly one of the members `channel` and `channels` names.
pub fn either_channels(
    alloc: Global,
    text: &str,
    doc: &Doc,
    node: Node,
) -> Result<Option<TextList>, Memory>
    requires { IsObject text.now doc.now node }
    ensures { (ms : Members) → IsObjectOf text.now doc.now node ms → IfOk result (Gives (HasEither text.now ms)) }
{
    match single_channel(alloc, text, doc, node)? {
        Some(channels) => Ok(Some(channels)),
        None => listed_channels(alloc, text, doc, node),
    }
}

/// The one channel that the member `channel` names, where there are no `channels`.
pub fn single_channel(
    alloc: Global,
    text: &str,
    doc: &Doc,
    node: Node,
) -> Result<Option<TextList>, Memory>
    requires { IsObject text.now doc.now node }
    ensures { (ms : Members) → IsObjectOf text.now doc.now node ms → IfOk result (Gives (HasChannel text.now ms)) }
{
    if !is_absent(text, doc, node, "channels") {
        return Ok(None);
    }
    let Some(channel) = string_member(alloc, text, doc, node, "channel")? else {
        return Ok(None);
    };
    if !is_subscribable(channel.as_str()) {
        return Ok(None);
    }
    let mut channels = TextList::new(alloc);
    channels.push(channel)?;
    Ok(Some(channels))
}

/// The channels that the member `channels` names, where there is no `channel`.
fn listed_channels(
    alloc: Global,
    text: &str,
    doc: &Doc,
    node: Node,
) -> Result<Option<TextList>, Memory>
    requires { IsObject text.now doc.now node }
    ensures { (ms : Members) → IsObjectOf text.now doc.now node ms → IfOk result (Gives (HasChannels text.now ms)) }
{
    if !is_absent(text, doc, node, "channel") {
        return Ok(None);
    }
    match array_member(text, doc, node, "channels") {
        Some(array) => channels_of(alloc, text, doc, array),
        None => Ok(None),
    }
}

/// The 1 to `MOST_CHANNELS` channels that the values of an array name, each at its first place alone.
fn channels_of(
    alloc: Global,
    text: &str,
    doc: &Doc,
    array: Array,
) -> Result<Option<TextList>, Memory>
    requires { (vs : Items) × IsArrayOf text.now doc.now array vs }
    ensures { (vs : Items) → IsArrayOf text.now doc.now array vs → IfOk result (Gives (IsChannelList text.now vs)) }
{
    if array.count == 0 || array.count > MOST_CHANNELS {
        return Ok(None);
    }
    let Some(names) = strings_of(alloc, text, doc, array)? else {
        return Ok(None);
    };
    if !are_subscribable(names.as_slice()) {
        return Ok(None);
    }
    let channels = first_places(alloc, names.as_slice())?;
    Ok(Some(channels))
}

//! The events of a batch.
ghost use Rattle.std.specs.Prelude.{IfOk};
ghost use Rattle.ch_base.specs.JsonTree.{Tree, Items, Members};
ghost use Rattle.ch_base.specs.JsonParts.{items_of};
ghost use Rattle.ch_json.specs.NodeOf.{IsNode, IsObject};
ghost use Rattle.ch_members.specs.Readings.{Gives, IsValue, IsObjectOf, IsArrayOf};
ghost use Rattle.ch_requests.specs.Triggers.{AreEvents, IsEventList};
ghost use Rattle.ch_triggers.specs.Bodies.{HasBatch, IsEventValue};

use crate::event::single_event;
use ch_base::Memory;
use ch_json::{Doc, Node};
use ch_members::{Array, array_member, object_at};
use ch_requests::{MOST_EVENTS, Trigger, TriggerList};
use std::alloc::Global;

/// The events that the member `batch` has.
pub fn batch_member(
    alloc: Global,
    text: &str,
    doc: &Doc,
    node: Node,
) -> Result<Option<TriggerList>, Memory>
    requires { IsObject text.now doc.now node }
    ensures { (ms : Members) → IsObjectOf text.now doc.now node ms → IfOk result (Gives (HasBatch text.now ms)) }
{
    match array_member(text, doc, node, "batch") {
        Some(array) => event_list(alloc, text, doc, array),
        None => Ok(None),
    }
}

/// The 1 to 10 events of an array.
fn event_list(
    alloc: Global,
    text: &str,
    doc: &Doc,
    array: Array,
) -> Result<Option<TriggerList>, Memory>
    requires { (vs : Items) × IsArrayOf text.now doc.now array vs }
    ensures { (vs : Items) → IsArrayOf text.now doc.now array vs → IfOk result (Gives (IsEventList text.now vs)) }
{
    if array.count == 0 || array.count > MOST_EVENTS {
        return Ok(None);
    }
    events_of(alloc, text, doc, array)
}

/// The events that the values of an array are.
fn events_of(
    alloc: Global,
    text: &str,
    doc: &Doc,
    array: Array,
) -> Result<Option<TriggerList>, Memory>
    requires { (vs : Items) × IsArrayOf text.now doc.now array vs }
    ensures { (vs : Items) → IsArrayOf text.now doc.now array vs → IfOk result (Gives (AreEvents text.now (items_of vs))) }
{
    let mut events = TriggerList::new(alloc);
    for i in 0..array.count {
        let Some(event) = event_at(alloc, text, doc, array.item(doc, i))? else {
            return Ok(None);
        };
        events.push(event)?;
    }
    Ok(Some(events))
}

/// The event on one channel that a value is.
fn event_at(alloc: Global, text: &str, doc: &Doc, node: Node) -> Result<Option<Trigger>, Memory>
    requires { IsValue text.now doc.now node }
    ensures { (v : Tree) → IsNode text.now doc.now node v → IfOk result (Gives (IsEventValue text.now v)) }
{
    match object_at(doc, node) {
        Some(object) => single_event(alloc, text, doc, object),
        None => Ok(None),
    }
}

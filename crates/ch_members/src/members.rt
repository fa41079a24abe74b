//! The values of an object's members, by their names.
ghost use Rattle.std.specs.Prelude.{IfOk, IsTrue, ◌↔◌};
ghost use Rattle.ch_base.specs.JsonTree.{Members};
ghost use Rattle.ch_base.specs.ObjectMembers.{HasNone, HasString, HasOptional, HasSpelled};
ghost use Rattle.ch_json.specs.NodeOf.{IsObject};
ghost use Rattle.ch_members.specs.Readings.{Gives, IsObjectOf, ReadsObjectMember, ReadsArrayMember};

use crate::array::Array;
use crate::values::{array_at, object_at, optional_at, string_at};
use ch_base::{Memory, Text};
use ch_json::{Doc, Found, Node};
use std::alloc::Global;

/// The string that the only member of the name stands for.
pub fn string_member(
    alloc: Global,
    text: &str,
    doc: &Doc,
    node: Node,
    name: &str,
) -> Result<Option<Text>, Memory>
    requires { IsObject text.now doc.now node }
    ensures { (ms : Members) → IsObjectOf text.now doc.now node ms → IfOk result (Gives (HasString text.now ms name.now)) }
{
    match doc.find(text, node, name) {
        Found::One(value) => string_at(alloc, text, doc, value),
        _ => Ok(None),
    }
}

/// The string of a member that may be left out.
pub fn optional_member(
    alloc: Global,
    text: &str,
    doc: &Doc,
    node: Node,
    name: &str,
) -> Result<Option<Option<Text>>, Memory>
    requires { IsObject text.now doc.now node }
    ensures { (ms : Members) → IsObjectOf text.now doc.now node ms → IfOk result (Gives (HasOptional text.now ms name.now)) }
{
    match doc.find(text, node, name) {
        Found::Absent => Ok(Some(None)),
        Found::One(value) => optional_at(alloc, text, doc, value),
        Found::Many => Ok(None),
    }
}

/// The value of a member as it is spelled; null where it is left out.
pub fn spelled_member(
    alloc: Global,
    text: &str,
    doc: &Doc,
    node: Node,
    name: &str,
) -> Result<Option<Text>, Memory>
    requires { IsObject text.now doc.now node }
    ensures { (ms : Members) → IsObjectOf text.now doc.now node ms → IfOk result (Gives (HasSpelled text.now ms name.now)) }
{
    match doc.find(text, node, name) {
        Found::Absent => {
            let spelling = Text::of(alloc, "null")?;
            Ok(Some(spelling))
        }
        Found::One(value) => {
            let spelling = Text::of(alloc, doc.span(value).part(text))?;
            Ok(Some(spelling))
        }
        Found::Many => Ok(None),
    }
}

/// The object that the only member of the name is.
pub fn object_member(text: &str, doc: &Doc, node: Node, name: &str) -> Option<Node>
    requires { IsObject text.now doc.now node }
    ensures { (ms : Members) → IsObjectOf text.now doc.now node ms →
        ReadsObjectMember text.now doc.now ms name.now result }
{
    match doc.find(text, node, name) {
        Found::One(value) => object_at(doc, value),
        _ => None,
    }
}

/// The array that the only member of the name is.
pub fn array_member(text: &str, doc: &Doc, node: Node, name: &str) -> Option<Array>
    requires { IsObject text.now doc.now node }
    ensures { (ms : Members) → IsObjectOf text.now doc.now node ms →
        ReadsArrayMember text.now doc.now ms name.now result }
{
    match doc.find(text, node, name) {
        Found::One(value) => array_at(doc, value),
        _ => None,
    }
}

/// Whether no member has the name.
pub fn is_absent(text: &str, doc: &Doc, node: Node, name: &str) -> bool
    requires { IsObject text.now doc.now node }
    ensures { (ms : Members) → IsObjectOf text.now doc.now node ms → (IsTrue result ↔ HasNone text.now ms name.now) }
{
    matches!(doc.find(text, node, name), Found::Absent)
}

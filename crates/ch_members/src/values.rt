//! What one value is.
ghost use Rattle.std.specs.Prelude.{IfOk, List, ℕ};
ghost use Rattle.ch_base.specs.JsonTree.{Tree};
ghost use Rattle.ch_base.specs.ObjectMembers.{IsStringOf};
ghost use Rattle.ch_json.specs.NodeOf.{IsNode, HasNode};
ghost use Rattle.ch_members.specs.Readings.{Gives, IsValue, IsOptionalOf, IsObjectNode, ReadsArray};

use crate::array::Array;
use ch_base::{Memory, Text};
use ch_json::{Doc, Form, Node, unescape};
use std::alloc::Global;

/// What a string stands for; none where the value is no string.
pub fn string_at(alloc: Global, text: &str, doc: &Doc, node: Node) -> Result<Option<Text>, Memory>
    requires { IsValue text.now doc.now node }
    ensures { (v : Tree) → IsNode text.now doc.now node v → IfOk result (Gives (IsStringOf text.now v)) }
{
    match doc.form(node) {
        Form::Str => {
            let string = unescape(alloc, text, doc.span(node))?;
            Ok(Some(string))
        }
        _ => Ok(None),
    }
}

/// What a string stands for, or nothing at null; none where the value is neither.
pub fn optional_at(
    alloc: Global,
    text: &str,
    doc: &Doc,
    node: Node,
) -> Result<Option<Option<Text>>, Memory>
    requires { IsValue text.now doc.now node }
    ensures { (v : Tree) → IsNode text.now doc.now node v → IfOk result (Gives (IsOptionalOf text.now v)) }
{
    match doc.form(node) {
        Form::Null => Ok(Some(None)),
        Form::Str => {
            let string = unescape(alloc, text, doc.span(node))?;
            Ok(Some(Some(string)))
        }
        _ => Ok(None),
    }
}

/// The node again where it is an object.
pub fn object_at(doc: &Doc, node: Node) -> Option<Node>
    requires { HasNode doc.now node }
    ensures { (text : List ℕ) (v : Tree) → IsNode text doc.now node v → IsObjectNode v node result }
{
    match doc.form(node) {
        Form::Object(_) => Some(node),
        _ => None,
    }
}

/// The array that a value is.
pub fn array_at(doc: &Doc, node: Node) -> Option<Array>
    requires { HasNode doc.now node }
    ensures { (text : List ℕ) (v : Tree) → IsNode text doc.now node v → ReadsArray text doc.now v result }
{
    match doc.form(node) {
        Form::List(count) => Some(Array { node, count }),
        _ => None,
    }
}

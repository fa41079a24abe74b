//! The data of an event.
ghost use Rattle.std.specs.Prelude.{IfOk};
ghost use Rattle.ch_base.specs.JsonTree.{Tree, Members};
ghost use Rattle.ch_json.specs.NodeOf.{IsNode, IsObject};
ghost use Rattle.ch_members.specs.Readings.{Gives, IsValue, IsObjectOf};
ghost use Rattle.ch_triggers.specs.Contents.{HasContent, IsContentOf};

use ch_base::{Memory, Text};
use ch_json::{Doc, Found, Node};
use ch_members::string_at;
use std::alloc::Global;

/// The data of an event, a string: as they are spelled, and how many bytes they have, unescaped.
#[derive(Debug, Drop)]
pub struct Content {
    pub body: Text,
    pub size: u64,
}

/// The string that is the member `data`.
pub fn content_member(
    alloc: Global,
    text: &str,
    doc: &Doc,
    node: Node,
) -> Result<Option<Content>, Memory>
    requires { IsObject text.now doc.now node }
    ensures { (ms : Members) → IsObjectOf text.now doc.now node ms → IfOk result (Gives (HasContent text.now ms)) }
{
    match doc.find(text, node, "data") {
        Found::One(value) => content_at(alloc, text, doc, value),
        _ => Ok(None),
    }
}

fn content_at(alloc: Global, text: &str, doc: &Doc, node: Node) -> Result<Option<Content>, Memory>
    requires { IsValue text.now doc.now node }
    ensures { (v : Tree) → IsNode text.now doc.now node v → IfOk result (Gives (IsContentOf text.now v)) }
{
    let Some(string) = string_at(alloc, text, doc, node)? else {
        return Ok(None);
    };
    let body = Text::of(alloc, doc.span(node).part(text))?;
    let size = string.len() as u64;
    Ok(Some(Content { body, size }))
}

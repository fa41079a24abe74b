//! The object that a text is.
ghost use Rattle.std.specs.Prelude.{IfOk, IsTrue, ◌↔◌};
ghost use Rattle.ch_base.specs.JsonTree.{Tree};
ghost use Rattle.ch_json.specs.NodeOf.{IsNode};
ghost use Rattle.ch_members.specs.Readings.{IsValue, ReadsText, ReadsObject, IsPlainObject};

use ch_base::Memory;
use ch_json::{Doc, Form, JsonError, Node, read, unescape};
use std::alloc::Global;
use std::collections::BTreeSet;

/// The document of a text that is an object in which no name stands twice; none where it is none.
pub fn object_of(alloc: Global, text: &str) -> Result<Option<Doc>, Memory>
    ensures { IfOk result (ReadsObject text.now) }
{
    match document_of(alloc, text)? {
        None => Ok(None),
        Some(doc) => {
            let top = doc.top();
            if is_plain_object(alloc, text, &doc, top)? {
                Ok(Some(doc))
            } else {
                Ok(None)
            }
        }
    }
}

/// The document of a JSON text; none where it is none.
pub fn document_of(alloc: Global, text: &str) -> Result<Option<Doc>, Memory>
    ensures { IfOk result (ReadsText text.now) }
{
    match read(alloc, text) {
        Ok(doc) => Ok(Some(doc)),
        Err(JsonError::Memory) => Err(Memory),
        Err(JsonError::Syntax(_)) => Ok(None),
        Err(JsonError::Deep(_)) => Ok(None),
    }
}

/// Whether the value is an object in which no name stands twice.
pub fn is_plain_object(alloc: Global, text: &str, doc: &Doc, node: Node) -> Result<bool, Memory>
    requires { IsValue text.now doc.now node }
    ensures { (v : Tree) → IsNode text.now doc.now node v → IfOk result (λ b. IsTrue b ↔ IsPlainObject text.now v) }
{
    let Form::Object(count) = doc.form(node) else {
        return Ok(false);
    };
    let mut names = BTreeSet::new(alloc);
    for i in 0..count {
        let name = unescape(alloc, text, doc.key(node, i))?;
        if !names.insert(name)? {
            return Ok(false);
        }
    }
    Ok(true)
}

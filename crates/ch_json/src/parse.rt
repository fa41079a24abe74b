//! Reading a text.
ghost use Rattle.std.specs.Prelude.{◌≡◌, ◌≢◌, ◌↔◌, ℕ, IfOk, IsOk};
ghost use Rattle.ch_base.specs.JsonTree.{Tree};
ghost use Rattle.ch_base.specs.JsonText.{Spells};
ghost use Rattle.ch_json.specs.Front.{IsSyntaxFault, IsTooDeep};
ghost use Rattle.ch_json.specs.NodeOf.{HasTree};

use crate::doc::Doc;
use crate::error::JsonError;
use crate::reader::{Mode, Reader};
use std::alloc::Global;

/// Reads a JSON text (RFC 8259): one value with blanks round it, at most 64 open brackets, and
/// surrogate escapes in pairs only.
///
/// Unless memory runs out, the answer is exact: Ok where the text spells a tree, which the document
/// then has, and else the one fault that the text has.
pub fn read(alloc: Global, text: &str) -> Result<Doc, JsonError>
    ensures tree { IfOk result (λ d. (v : Tree) × Spells text.now v × HasTree d v) }
    ensures spelled { (v : Tree) → Spells text.now v → result ≢ Err JsonError.Memory → IsOk result }
    ensures syntax { (at : ℕ) → result ≢ Err JsonError.Memory →
        ((result ≡ Err (JsonError.Syntax at)) ↔ IsSyntaxFault text.now at) }
    ensures deep { (at : ℕ) → result ≢ Err JsonError.Memory →
        ((result ≡ Err (JsonError.Deep at)) ↔ IsTooDeep text.now at) }
{
    let mut reader = Reader::new(alloc);
    let mut mode = Mode::Value;
    for (i, byte) in text.as_bytes().iter().enumerate() {
        mode = reader.step(mode, i as u64, *byte)?;
    }
    let top = reader.finish(mode, text.len() as u64)?;
    Ok(Doc::of(reader.entries, top))
}

ghost use Rattle.std.specs.Prelude.{◌≡◌, ℕ, List, length, IfOk};
ghost use Rattle.ch_base.specs.JsonTree.{Tree};
ghost use Rattle.ch_base.specs.JsonText.{Spells};
ghost use Rattle.ch_json.specs.NodeOf.{HasTree};
ghost use Rattle.ch_transcript.specs.Obeying.{IsJudged};
ghost use Rattle.ch_player.specs.JsonString.{is_whole_string};

use ch_base::Memory;
use ch_json::{Doc, Form, JsonError, read};
use std::alloc::Global;

/// Whether the text is a JSON string, from quote to quote.
pub fn is_json_string(alloc: Global, text: &str) -> Result<bool, Memory>
    ensures { IfOk result (IsJudged text.now) }
{
    match read(alloc, text) {
        Ok(doc) => Ok(is_whole_string(&doc, text.len() as u64)),
        Err(JsonError::Memory) => Err(Memory),
        Err(JsonError::Syntax(_)) => Ok(false),
        Err(JsonError::Deep(_)) => Ok(false),
    }
}

/// Whether the document of a text of this length is a string from its first byte to its last.
fn is_whole_string(doc: &Doc, length: u64) -> bool
    requires { (text : List ℕ) × (v : Tree) × Spells text v × HasTree doc.now v }
    ensures { (text : List ℕ) (v : Tree) → Spells text v → HasTree doc.now v → result ≡ is_whole_string length v }
{
    let top = doc.top();
    let span = doc.span(top);
    match doc.form(top) {
        Form::Str => span.from == 0 && span.to == length,
        _ => false,
    }
}

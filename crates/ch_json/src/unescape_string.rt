//! The text that a string stands for, and comparing it with a name.
ghost use Rattle.std.specs.Prelude.{◌≡◌, ◌↔◌, ◌++◌, ℕ, List, IfOk, IsTrue, MatchOption};
ghost use Rattle.ch_base.specs.JsonTree.{plain, string as string_form};
ghost use Rattle.ch_base.specs.JsonText.{Unescapes};
ghost use Rattle.ch_base.specs.JsonParts.{part, IsSpelledIn};
ghost use Rattle.ch_json.specs.Entries.{span_of};
ghost use Rattle.ch_json.specs.Pieces.{IsString};

use crate::pieces::{Piece, piece_at};
use crate::span::Span;
use ch_base::{Memory, Text};
use std::alloc::Global;

/// The text that a string stands for. The span is a string's, or a name's, of `text`.
pub fn unescape(alloc: Global, text: &str, span: Span) -> Result<Text, Memory>
    requires { IsSpelledIn text.now (plain string_form (span_of span)) }
    ensures { IfOk result (Unescapes (part text.now (span_of span))) }
{
    let string = span.part(text);
    let mut out = String::new(alloc);
    let mut at = 1;
    loop {
        match piece_at(string, at) {
            Piece::End => return Ok(Text::from_string(out)),
            Piece::Run(end) => {
                out.push_str(&string[at..end])?;
                at = end;
            }
            Piece::Escape(character, end) => {
                out.push(character)?;
                at = end;
            }
        }
    }
}

/// Whether a string, from quote to quote, stands for this name.
pub fn is_named(string: &str, name: &str) -> bool
    requires { IsString string.now }
    ensures { IsTrue result ↔ Unescapes string.now name.now }
{
    let bytes = string.as_bytes();
    let mut left = name.as_bytes();
    let mut at = 1;
    loop {
        match piece_at(string, at) {
            Piece::End => return left.is_empty(),
            Piece::Run(end) => {
                let Some(rest) = behind(left, &bytes[at..end]) else {
                    return false;
                };
                left = rest;
                at = end;
            }
            Piece::Escape(character, end) => {
                let mut buffer = [0; 4];
                let spelled = character.encode_utf8(&mut buffer);
                let Some(rest) = behind(left, spelled.as_bytes()) else {
                    return false;
                };
                left = rest;
                at = end;
            }
        }
    }
}

/// What follows these bytes at the front, where they stand there.
fn behind<'a>(bytes: &'a [u8], front: &[u8]) -> Option<&'a [u8]>
    ensures { MatchOption result ((rest : List ℕ) → bytes.now ≡ front.now ++ rest → ⊥) (λ rest. bytes.now ≡ front.now ++ rest.now) }
{
    bytes.strip_prefix(front)
}

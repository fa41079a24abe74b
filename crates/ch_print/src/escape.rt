//! The escaping of strings.
ghost use Rattle.std.specs.Prelude.{◌≡◌, ◌++◌, length, take, IfOk, OnOk, OnErr, string_bytes, true, [], ◌∷◌, ◌<◌};
ghost use Rattle.std.specs.Char.{digit_char};
ghost use Rattle.ch_base.specs.Escape.{escaped, escaped_byte, needs_escape, quoted};

use ch_base::{Memory, Text};
use std::alloc::Global;

/// The JSON string of a text (RFC 8259, section 7).
#[tactic(auto, unfolding(ch_base::specs::Escape::quoted))]
pub fn quoted(alloc: Global, text: &str) -> Result<String, Memory>
    ensures { IfOk result (λ t. string_bytes t ≡ quoted text.now) }
{
    let inner = escaped(alloc, text)?;
    let inner = inner.as_str();
    let text = format!(in alloc; "\"{inner}\"")?;
    Ok(text)
}

fn escaped(alloc: Global, text: &str) -> Result<Text, Memory>
    ensures { IfOk result (λ t. t ≡ escaped text.now) }
{
    let mut out = Text::new(alloc);
    escape_into(&mut out, text)?;
    Ok(out)
}

/// Adds the escaped text, without quotes. Without memory nothing changes.
pub fn escape_into(out: &mut Text, text: &str) -> Result<(), Memory>
    ensures ok { OnOk result (out.new ≡ out.old ++ escaped text.now) }
    ensures err { OnErr result (out.new ≡ out.old) }
{
    let before = out.as_str().len();
    let done = append_escaped(out, text);
    if done.is_err() {
        let _now = out.as_str();
        out.truncate(before);
    }
    done
}

fn append_escaped(out: &mut Text, text: &str) -> Result<(), Memory>
    ensures ok { OnOk result (out.new ≡ out.old ++ escaped text.now) }
    ensures front { take (length out.old) out.new ≡ out.old }
{
    let bytes = text.as_bytes();
    let mut from = 0;
    for (i, byte) in bytes.iter().enumerate() {
        if is_special(*byte) {
            out.push_str(&text[from..i])?;
            push_escape(out, *byte)?;
            from = i + 1;
        }
    }
    out.push_str(&text[from..])
}

fn is_special(byte: u8) -> bool
    ensures { result ≡ needs_escape byte }
{
    byte == b'"' || byte == b'\\' || byte < 32
}

#[tactic(auto, unfolding(ch_base::specs::Escape::escaped_byte))]
fn push_escape(out: &mut Text, byte: u8) -> Result<(), Memory>
    requires { needs_escape byte ≡ true }
    ensures ok { OnOk result (out.new ≡ out.old ++ escaped_byte byte) }
    ensures front { take (length out.old) out.new ≡ out.old }
{
    match byte {
        b'"' => out.push_str("\\\""),
        b'\\' => out.push_str("\\\\"),
        8 => out.push_str("\\b"),
        9 => out.push_str("\\t"),
        10 => out.push_str("\\n"),
        12 => out.push_str("\\f"),
        13 => out.push_str("\\r"),
        _ => {
            out.push_str("\\u00")?;
            out.push_str(hex_digit(byte / 16))?;
            out.push_str(hex_digit(byte % 16))
        }
    }
}

fn hex_digit(digit: u8) -> &'static str
    requires { digit < 16 }
    ensures { result.now ≡ digit_char digit ∷ [] }
{
    match digit {
        0 => "0",
        1 => "1",
        2 => "2",
        3 => "3",
        4 => "4",
        5 => "5",
        6 => "6",
        7 => "7",
        8 => "8",
        9 => "9",
        10 => "a",
        11 => "b",
        12 => "c",
        13 => "d",
        14 => "e",
        _ => "f",
    }
}

//! The characters of a string, from quote to quote (RFC 8259, section 7).
ghost use Rattle.std.specs.Prelude.{◌≡◌, ◌≢◌, ◌<◌, ◌≤◌, ◌+◌, ◌&&◌, ℕ, List, [], true, length, drop, slice_index};
ghost use Rattle.ch_base.specs.JsonText.{Char, Chars, is_hex, is_d, is_8_to_b, hex_value, is_short, short_value};
ghost use Rattle.std.specs.Char.{digit_value};
ghost use Rattle.ch_json.specs.Pieces.{IsRest, IsPiece, AreHex};

use crate::classes::{is_8_to_b_byte, is_d_byte};

/// What comes next in a string, and the place behind it.
#[derive(Clone, Copy, Debug)]
pub enum Piece {
    /// The closing quote.
    End,
    /// Bytes that stand for themselves.
    Run(usize),
    /// An escape, or a pair of them, and the character that it stands for.
    Escape(char, usize),
}

/// What stands at the place `at` of a string.
pub fn piece_at(string: &str, at: usize) -> Piece
    requires { IsRest string.now at }
    ensures { (cs : List Char) → Chars cs (drop at string.now) [] → IsPiece string.now at cs result }
{
    let bytes = string.as_bytes();
    let byte = bytes[at];
    if byte == b'"' {
        return Piece::End;
    }
    if byte == b'\\' {
        return escape_at(string, at);
    }
    Piece::Run(run_end(bytes, at))
}

/// The first place from `at` on where a quote or a backslash stands, or the end.
fn run_end(bytes: &[u8], at: usize) -> usize
    requires { at ≤ length bytes.now }
    ensures order { at ≤ result }
    ensures within { result ≤ length bytes.now }
    ensures no_quote { (k : ℕ) → at ≤ k → k < result → slice_index bytes.now k ≢ 34 }
    ensures no_backslash { (k : ℕ) → at ≤ k → k < result → slice_index bytes.now k ≢ 92 }
    ensures ascii { result < length bytes.now → slice_index bytes.now result < 128 }
    ensures ahead { at < length bytes.now → slice_index bytes.now at ≢ 34 → slice_index bytes.now at ≢ 92 → at < result }
{
    for i in at..bytes.len() {
        let byte = bytes[i];
        if byte == b'"' {
            return i;
        }
        if byte == b'\\' {
            return i;
        }
    }
    bytes.len()
}

fn escape_at(string: &str, at: usize) -> Piece
    requires rest { IsRest string.now at }
    requires backslash { slice_index string.now at ≡ 92 }
    ensures { (cs : List Char) → Chars cs (drop at string.now) [] → IsPiece string.now at cs result }
{
    let bytes = string.as_bytes();
    let letter = bytes[at + 1];
    if letter != b'u' {
        return Piece::Escape(short_char(letter), at + 2);
    }
    let unit = hex_unit(bytes, at + 2);
    if !is_high_surrogate(bytes, at + 2) {
        return Piece::Escape(char::from_u32(unit).unwrap(), at + 6);
    }
    let low = hex_unit(bytes, at + 8);
    let code = 0x10000 + (unit - 0xD800) * 1024 + (low - 0xDC00);
    Piece::Escape(char::from_u32(code).unwrap(), at + 12)
}

/// Whether the hex digits write a unit from d800 to dbff.
fn is_high_surrogate(bytes: &[u8], at: usize) -> bool
    requires { at + 1 < length bytes.now }
    ensures { result ≡ (is_d (slice_index bytes.now at) && is_8_to_b (slice_index bytes.now (at + 1))) }
{
    is_d_byte(bytes[at]) && is_8_to_b_byte(bytes[at + 1])
}

/// What the letter of a short escape stands for.
fn short_char(letter: u8) -> char
    requires { is_short letter ≡ true }
    ensures value { result ≡ short_value letter }
    ensures ascii { result < 128 }
{
    match letter {
        b'b' => '\u{8}',
        b'f' => '\u{c}',
        b'n' => '\n',
        b'r' => '\r',
        b't' => '\t',
        other => other as char,
    }
}

/// The number that four hex digits write.
fn hex_unit(bytes: &[u8], at: usize) -> u32
    requires within { at + 4 ≤ length bytes.now }
    requires hex { AreHex bytes.now at }
    ensures { result ≡ hex_value (slice_index bytes.now at) (slice_index bytes.now (at + 1)) (slice_index bytes.now (at + 2)) (slice_index bytes.now (at + 3)) }
{
    let high = hex_digit(bytes[at]) * 4096 + hex_digit(bytes[at + 1]) * 256;
    high + hex_digit(bytes[at + 2]) * 16 + hex_digit(bytes[at + 3])
}

fn hex_digit(byte: u8) -> u32
    requires { is_hex byte ≡ true }
    ensures value { result ≡ digit_value byte }
    ensures small { result < 16 }
{
    let digit = match byte {
        b'0'..=b'9' => byte - b'0',
        b'A'..=b'F' => byte - b'A' + 10,
        _ => byte - b'a' + 10,
    };
    u32::from(digit)
}

//! Strings, a byte at a time (RFC 8259, section 7).
ghost use Rattle.std.specs.Prelude.{◌≡◌};
ghost use Rattle.ch_json.specs.Scalars.{string_step, to_if};
ghost use Rattle.ch_json.specs.States.{in_string_of, string_step_of};

use crate::classes::{
    is_8_to_b_byte, is_c_to_f_byte, is_d_byte, is_hex_byte, is_short_byte, is_unescaped_byte,
};

/// Where the next byte of a string stands.
#[derive(Clone, Copy, Debug)]
pub enum InString {
    /// Between characters.
    Chars,
    /// Behind a backslash.
    Escape,
    /// Before the four hex digits of an escape.
    Digits4,
    /// Behind the first digit, a d: a surrogate may come.
    AfterD,
    Digits3,
    Digits2,
    Digits1,
    /// Before the last two digits of a high surrogate.
    High2,
    High1,
    /// Behind a high surrogate: an escape of a low one comes.
    LowBackslash,
    LowU,
    LowFirst,
    LowSecond,
}

/// What a byte does to a string: it ends it, it leaves it open, or it can't stand there.
#[derive(Clone, Copy, Debug)]
pub enum StringStep {
    Ends,
    On(InString),
    Fault,
}

fn on_if(ok: bool, next: InString) -> StringStep
    ensures { string_step_of result ≡ to_if ok (in_string_of next) }
{
    if ok {
        StringStep::On(next)
    } else {
        StringStep::Fault
    }
}

/// The state after a byte of a string.
#[tactic(auto, unfolding(crate::specs::Scalars::string_step))]
pub fn after_string_byte(state: InString, byte: u8) -> StringStep
    ensures { string_step_of result ≡ string_step (in_string_of state) byte }
{
    match state {
        InString::Chars => after_char(byte),
        InString::Escape => after_backslash(byte),
        InString::Digits4 => after_u(byte),
        InString::AfterD => after_d(byte),
        InString::Digits3 => on_if(is_hex_byte(byte), InString::Digits2),
        InString::Digits2 => on_if(is_hex_byte(byte), InString::Digits1),
        InString::Digits1 => on_if(is_hex_byte(byte), InString::Chars),
        InString::High2 => on_if(is_hex_byte(byte), InString::High1),
        InString::High1 => on_if(is_hex_byte(byte), InString::LowBackslash),
        InString::LowBackslash => on_if(byte == b'\\', InString::LowU),
        InString::LowU => on_if(byte == b'u', InString::LowFirst),
        InString::LowFirst => on_if(is_d_byte(byte), InString::LowSecond),
        InString::LowSecond => on_if(is_c_to_f_byte(byte), InString::Digits2),
    }
}

#[tactic(auto, unfolding(crate::specs::Scalars::string_step))]
fn after_char(byte: u8) -> StringStep
    ensures { string_step_of result ≡ string_step (in_string_of InString.Chars) byte }
{
    if byte == b'"' {
        StringStep::Ends
    } else if byte == b'\\' {
        StringStep::On(InString::Escape)
    } else {
        on_if(is_unescaped_byte(byte), InString::Chars)
    }
}

#[tactic(auto, unfolding(crate::specs::Scalars::string_step))]
fn after_backslash(byte: u8) -> StringStep
    ensures { string_step_of result ≡ string_step (in_string_of InString.Escape) byte }
{
    if is_short_byte(byte) {
        StringStep::On(InString::Chars)
    } else {
        on_if(byte == b'u', InString::Digits4)
    }
}

#[tactic(auto, unfolding(crate::specs::Scalars::string_step))]
fn after_u(byte: u8) -> StringStep
    ensures { string_step_of result ≡ string_step (in_string_of InString.Digits4) byte }
{
    if is_d_byte(byte) {
        StringStep::On(InString::AfterD)
    } else {
        on_if(is_hex_byte(byte), InString::Digits3)
    }
}

#[tactic(auto, unfolding(crate::specs::Scalars::string_step))]
fn after_d(byte: u8) -> StringStep
    ensures { string_step_of result ≡ string_step (in_string_of InString.AfterD) byte }
{
    if is_8_to_b_byte(byte) {
        StringStep::On(InString::High2)
    } else {
        on_if(
            is_hex_byte(byte) && !is_c_to_f_byte(byte),
            InString::Digits2,
        )
    }
}

//! Numbers, a byte at a time (RFC 8259, section 6).
ghost use Rattle.std.specs.Prelude.{◌≡◌};
ghost use Rattle.ch_json.specs.Scalars.{number_step, may_end, more_if};
ghost use Rattle.ch_json.specs.States.{in_number_of, number_step_of};

use crate::classes::{is_digit_byte, is_digit_byte_1_to_9, is_e_byte, is_sign_byte};

/// Where the next byte of a number stands.
#[derive(Clone, Copy, Debug)]
pub enum InNumber {
    Minus,
    Zero,
    Whole,
    Point,
    Fraction,
    E,
    Sign,
    Exponent,
}

/// What a byte does to a number: it is part of it, or the number stops before it.
#[derive(Clone, Copy, Debug)]
pub enum NumberStep {
    More(InNumber),
    Stop,
}

fn more_when(ok: bool, next: InNumber) -> NumberStep
    ensures { number_step_of result ≡ more_if ok (in_number_of next) }
{
    if ok {
        NumberStep::More(next)
    } else {
        NumberStep::Stop
    }
}

/// The state after a byte of a number, or that the byte is none of its.
#[tactic(auto, unfolding(crate::specs::Scalars::number_step))]
pub fn after_number_byte(state: InNumber, byte: u8) -> NumberStep
    ensures { number_step_of result ≡ number_step (in_number_of state) byte }
{
    let digit = is_digit_byte(byte);
    match state {
        InNumber::Minus if byte == b'0' => NumberStep::More(InNumber::Zero),
        InNumber::Minus => more_when(is_digit_byte_1_to_9(byte), InNumber::Whole),
        InNumber::Whole if digit => NumberStep::More(InNumber::Whole),
        InNumber::Zero | InNumber::Whole if byte == b'.' => NumberStep::More(InNumber::Point),
        InNumber::Zero | InNumber::Whole => more_when(is_e_byte(byte), InNumber::E),
        InNumber::Point => more_when(digit, InNumber::Fraction),
        InNumber::Fraction if digit => NumberStep::More(InNumber::Fraction),
        InNumber::Fraction => more_when(is_e_byte(byte), InNumber::E),
        InNumber::E if is_sign_byte(byte) => NumberStep::More(InNumber::Sign),
        InNumber::E => more_when(digit, InNumber::Exponent),
        InNumber::Sign | InNumber::Exponent => more_when(digit, InNumber::Exponent),
    }
}

/// Whether the digits so far are a number.
pub fn number_may_end(state: InNumber) -> bool
    ensures { result ≡ may_end (in_number_of state) }
{
    match state {
        InNumber::Zero | InNumber::Whole | InNumber::Fraction | InNumber::Exponent => true,
        InNumber::Minus | InNumber::Point | InNumber::E | InNumber::Sign => false,
    }
}

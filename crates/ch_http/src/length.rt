ghost use Rattle.std.specs.Prelude.{◌≡◌, ◌<◌, IsTrue, codes};
ghost use Rattle.std.specs.Char.{is_ascii_digit};
ghost use Rattle.std.specs.List.{list_all};
ghost use Rattle.std.specs.Str.Parse.{digits_value};
ghost use Rattle.ch_requests.specs.Fields.{body_length, is_length, length_by, values_of};
ghost use Rattle.ch_http.specs.Lengths.{length_of, length_in, with_value};

use crate::field::{has_field, is_named};
use ch_requests::HeadField;

/// The most digits of a length.
const MOST_DIGITS: usize = 19;

/// How long the body of a request is (RFC 9112, section 6; RFC 9110, section 8.6).
#[derive(Clone, Copy, Debug, PartialEq, Eq)]
pub(crate) enum BodyLength {
    /// No field tells it.
    Missing,
    /// The fields that tell it are faulty, or differ.
    Bad,
    /// So many bytes.
    Is(u64),
}

/// The length of the body. One that is coded for its transfer has none.
pub(crate) fn body_length(fields: &[HeadField]) -> BodyLength
    ensures { length_of result ≡ body_length fields.now }
{
    if has_field(fields, "transfer-encoding") {
        BodyLength::Missing
    } else {
        content_length(fields)
    }
}

fn content_length(fields: &[HeadField]) -> BodyLength
    ensures { length_of result ≡ length_by (values_of (codes "content-length") fields.now) }
{
    let mut length = BodyLength::Missing;
    'fields: for field in fields {
        if is_named(field, "content-length") {
            length = with_value(length, field.value.as_slice());
        }
    }
    length
}

/// The length by one more value.
fn with_value(length: BodyLength, value: &[u8]) -> BodyLength
    ensures { result ≡ with_value length value.now }
{
    match (length, length_in(value)) {
        (BodyLength::Missing, Some(told)) => BodyLength::Is(told),
        (BodyLength::Is(before), Some(told)) if told == before => length,
        _ => BodyLength::Bad,
    }
}

/// The number that a value is, where it is 1 to 19 digits.
fn length_in(value: &[u8]) -> Option<u64>
    ensures { result ≡ length_in value.now }
{
    if value.is_empty() || value.len() > MOST_DIGITS || !is_digits(value) {
        None
    } else {
        Some(number(value))
    }
}

fn is_digits(value: &[u8]) -> bool
    ensures { result ≡ list_all is_ascii_digit value.now }
{
    value.iter().all(|byte| byte.is_ascii_digit())
}

fn number(digits: &[u8]) -> u64
    requires { IsTrue (is_length digits.now) }
    ensures { result ≡ digits_value 10 digits.now }
{
    let mut number = 0;
    'digits: for digit in digits {
        number = number * 10 + u64::from(*digit - b'0');
    }
    number
}

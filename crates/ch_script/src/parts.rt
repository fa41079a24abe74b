ghost use Rattle.std.specs.Prelude.{◌≡◌, IfOk};
ghost use Rattle.std.specs.Option.{option_copied};
ghost use Rattle.ch_transcript.specs.Commands.{first_part, more_parts, number_in};

use ch_base::{LATEST_MOMENT, Memory};
use std::alloc::Global;

/// The text before the first blank.
pub fn first_part(text: &str) -> &str
    ensures { result.now ≡ first_part text.now }
{
    match text.split_once(' ') {
        Some((part, _)) => part,
        None => text,
    }
}

/// The text after the first blank, where there is one.
pub fn more_parts(text: &str) -> Option<&str>
    ensures { option_copied result ≡ more_parts text.now }
{
    match text.split_once(' ') {
        Some((_, rest)) => Some(rest),
        None => None,
    }
}

/// A number in decimal, without a leading zero, and at most `LATEST_MOMENT`: it is printed again and compared.
pub fn read_number(alloc: Global, text: &str) -> Result<Option<u64>, Memory>
    ensures { IfOk result (λ number. number ≡ number_in text.now) }
{
    let Ok(n) = text.parse::<u64>() else {
        return Ok(None);
    };
    let printed = n.to_string(alloc)?;
    if n <= LATEST_MOMENT && printed.as_str() == text {
        Ok(Some(n))
    } else {
        Ok(None)
    }
}

//! What the words of a command line ask for.
ghost use Rattle.std.specs.Prelude.{IfOk};
ghost use Rattle.ch_soak.specs.SoakWords.{IsReading, IsSoak};

use crate::limits::{FEWEST_LINES, MOST_LINES};
use ch_base::{Memory, Text};
use std::alloc::Global;

/// A soak: the transcript that this seed makes, of `FEWEST_LINES` to `MOST_LINES` lines.
#[derive(Clone, Copy, Debug, PartialEq, Eq)]
pub struct Soak {
    pub seed: u64,
    pub lines: u64,
}

/// The soak that the words ask for; None where they ask for none.
pub fn soak_of(alloc: Global, words: &[Text]) -> Result<Option<Soak>, Memory>
    ensures { IfOk result (IsSoak words.now) }
{
    let [command, seed, lines] = words else {
        return Ok(None);
    };
    if command.as_str() != "soak" {
        return Ok(None);
    }
    let seed = number_of(alloc, seed.as_str(), 0, u64::MAX)?;
    let lines = number_of(alloc, lines.as_str(), FEWEST_LINES, MOST_LINES)?;
    match (seed, lines) {
        (Some(seed), Some(lines)) => Ok(Some(Soak { seed, lines })),
        _ => Ok(None),
    }
}

/// The number from `least` to `most` that the word writes in decimal, without a sign or a leading zero: it is printed
/// again and compared.
fn number_of(alloc: Global, word: &str, least: u64, most: u64) -> Result<Option<u64>, Memory>
    ensures { IfOk result (IsReading word.now least most) }
{
    let Ok(number) = word.parse::<u64>() else {
        return Ok(None);
    };
    let printed = number.to_string(alloc)?;
    if number < least {
        return Ok(None);
    }
    if number <= most && printed.as_str() == word {
        Ok(Some(number))
    } else {
        Ok(None)
    }
}

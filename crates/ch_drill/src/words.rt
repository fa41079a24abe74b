//! What the words of a command line ask for.
ghost use Rattle.std.specs.Prelude.{IfOk};
ghost use Rattle.ch_drill.specs.DrillWords.{IsReading, IsDrill};

use crate::limits::{MOST_ROUNDS, MOST_WORKERS};
use ch_base::{Memory, Text};
use std::alloc::Global;

/// A drill: 1 to `MOST_WORKERS` workers, each with 1 to `MOST_ROUNDS` rounds.
#[derive(Clone, Copy, Debug, PartialEq, Eq)]
pub struct Drill {
    pub workers: u64,
    pub rounds: u64,
}

/// The drill that the words ask for; None where they ask for none.
pub fn drill_of(alloc: Global, words: &[Text]) -> Result<Option<Drill>, Memory>
    ensures { IfOk result (IsDrill words.now) }
{
    let [command, workers, rounds] = words else {
        return Ok(None);
    };
    if command.as_str() != "drill" {
        return Ok(None);
    }
    let workers = number_of(alloc, workers.as_str(), MOST_WORKERS)?;
    let rounds = number_of(alloc, rounds.as_str(), MOST_ROUNDS)?;
    match (workers, rounds) {
        (Some(workers), Some(rounds)) => Ok(Some(Drill { workers, rounds })),
        _ => Ok(None),
    }
}

/// The number from 1 to `most` that the word writes in decimal, without a sign or a leading zero: it is printed again
/// and compared.
fn number_of(alloc: Global, word: &str, most: u64) -> Result<Option<u64>, Memory>
    ensures { IfOk result (IsReading word.now most) }
{
    let Ok(number) = word.parse::<u64>() else {
        return Ok(None);
    };
    let printed = number.to_string(alloc)?;
    if number == 0 {
        return Ok(None);
    }
    if number <= most && printed.as_str() == word {
        Ok(Some(number))
    } else {
        Ok(None)
    }
}

//! The soak itself.
ghost use Rattle.std.specs.Prelude.{◌≡◌, ◌≤◌, ◌⊎◌, ℕ, List, IfOk, OnOk, Some, string_bytes};
ghost use Rattle.std.specs.Io.KnownBytes.{Appends};
ghost use Rattle.ch_config.specs.Config.{built_in};
ghost use Rattle.ch_io.specs.Counts.{Rose};
ghost use Rattle.ch_io.specs.Writes.{WritesLast};
ghost use Rattle.ch_replay.specs.Playable.{IsPlayable};
ghost use Rattle.ch_transcript.specs.Outcomes.{HasOutcome, ends};
ghost use Rattle.ch_soak.specs.declared.limits.TheConstants.{MOST_LINES};
ghost use Rattle.ch_soak.specs.Drawing.{left_of};
ghost use Rattle.ch_soak.specs.SoakText.{usage_line, IsSummary, Writes, Breaks};
ghost use Rattle.ch_soak.specs.SoakWords.{AsksForNone};

use crate::printing::{summary, usage_text};
use crate::source::Drawn;
use crate::summing::Summing;
use crate::words::{Soak, soak_of};
use ch_base::{Memory, Text};
use ch_config_text::built_in_text;
use ch_io::{Sink, write_all, write_last};
use ch_replay::replay;
use std::alloc::Global;

/// The line was written.
const DONE: u8 = 0;

/// The words ask for no soak.
const USAGE: u8 = 2;

/// A read failed.
const READ_FAILED: u8 = 5;

/// A write failed.
const WRITE_FAILED: u8 = 6;

/// There was no memory.
const MEMORY: u8 = 7;

/// Replays the transcript that the words ask for under the built-in configuration, writes one line that sums up its output,
/// and answers the status of the program.
///
/// | Status | Comes |
/// |---|---|
/// | 0 | the line was written |
/// | 2 | the words aren't `soak` with a seed of 64 bits and a number of lines from `FEWEST_LINES` to `MOST_LINES`; the usage line is written |
/// | 6 | a write to the sink failed, and a front of the line was written |
/// | 7 | want of memory; nothing was written |
pub fn soak<K: Sink>(alloc: Global, words: &[Text], sink: &mut K) -> u8
    ensures statuses { (result ≡ 0) ⊎ (result ≡ 2) ⊎ (result ≡ 6) ⊎ (result ≡ 7) }
    ensures summed { result ≡ 0 → Writes words.now (K.told sink.old) (K.told sink.new) }
    ensures asks_for_none { result ≡ 2 → AsksForNone words.now }
    ensures none { AsksForNone words.now → (result ≡ 2) ⊎ (result ≡ 7) }
    ensures usage { result ≡ 2 → WritesLast usage_line (K.told sink.old) (K.told sink.new) (Rose (K.faults sink.old) (K.faults sink.new)) }
    ensures cut { result ≡ 6 → Breaks words.now (K.told sink.old) (K.told sink.new) }
    ensures write_fault { result ≡ 6 → Rose (K.faults sink.old) (K.faults sink.new) }
    ensures memory { result ≡ 7 → sink.new ≡ sink.old }
{
    let soak = match soak_of(alloc, words) {
        Ok(Some(soak)) => soak,
        Ok(None) => {
            write_usage(sink);
            return USAGE;
        }
        Err(Memory) => return MEMORY,
    };
    let Ok(line) = summed(alloc, &soak) else {
        return MEMORY;
    };
    match write_all(sink, line.as_bytes()) {
        Ok(()) => DONE,
        Err(_) => WRITE_FAILED,
    }
}

/// Writes the usage line. That this fails changes no status.
fn write_usage<K: Sink>(sink: &mut K)
    ensures { WritesLast usage_line (K.told sink.old) (K.told sink.new) (Rose (K.faults sink.old) (K.faults sink.new)) }
{
    write_last(sink, usage_text());
}

/// The line that sums up the output of the soak's transcript.
#[tactic(auto, using(crate::proofs::Playing::playable))]
fn summed(alloc: Global, soak: &Soak) -> Result<String, Memory>
    requires { soak.now.lines ≤ MOST_LINES }
    ensures { IfOk result (λ line. IsSummary soak.now (string_bytes line)) }
{
    let mut source = Drawn::new(alloc, soak);
    let mut output = Summing::new(alloc);
    replay_drawn(alloc, &mut source, &mut output)?;
    summary(alloc, soak, output)
}

/// Replays a transcript of which no line is refused under the built-in configuration. A read of it fails only where there is no memory for a line, and a
/// write to what sums up only where there is none to count it.
fn replay_drawn(alloc: Global, source: &mut Drawn, output: &mut Summing) -> Result<(), Memory>
    requires { IsPlayable built_in (left_of source.old) }
    ensures { OnOk result ((text : List ℕ) × HasOutcome built_in (left_of source.old) (ends 0 text) × Appends output.old.held output.new.held text) }
{
    let words = [Text::of(alloc, "replay")?];
    let config = built_in_text().as_bytes();
    match replay(alloc, &words, Some(config), source, output) {
        DONE => Ok(()),
        READ_FAILED | WRITE_FAILED | MEMORY => Err(Memory),
        _ => unreachable!(),
    }
}

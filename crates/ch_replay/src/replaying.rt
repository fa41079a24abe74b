ghost use Rattle.std.specs.Prelude.{◌≡◌, ◌≤◌, ◌↔◌, true, false, MatchResult, IfOk, IfErr, IsErr, IfSome, OnOk, ◌⊎◌};
ghost use Rattle.std.specs.Option.{option_copied};
ghost use Rattle.ch_given.specs.ConfigLines.{config_or_line, Declines};
ghost use Rattle.ch_io.specs.Counts.{Rose};
ghost use Rattle.ch_io.specs.Writes.{WritesLast};
ghost use Rattle.ch_outcomes.specs.Answered.{AnswersOutcome, Refusal, IsReadTo};
ghost use Rattle.ch_transcript.specs.Printing.{error_line, long_line};
ghost use Rattle.ch_transcript.specs.Replayed.{Ran, status_of};
ghost use Rattle.ch_transcript.specs.Outcomes.{Plays, Outcome, HasOutcome};
ghost use Rattle.ch_transcript.specs.Progress.{Progress};
ghost use Rattle.ch_config.specs.Config.{IsConfig};
ghost use Rattle.ch_player.specs.Playing.{IsAt, IsSoundPlayer, config_of};
ghost use Rattle.ch_replay.specs.Playable.{IsPlayable};
ghost use Rattle.ch_replay.specs.Serving.{Serves, Stops, EndsAt, Names};
ghost use Rattle.ch_replay.specs.Words.{is_replay, usage_line};

use crate::fault_lines::{error_line, long_line};
use crate::line_reader::{LineReader, Next};
use ch_base::Text;
use ch_config::Config;
use ch_config_text::read_config;
use ch_given::decline;
use ch_io::{Sink, Source, write_all, write_last};
use ch_player::{LineFault, Player};
use ch_transcript::Ending;
use std::alloc::Global;

/// Replays the transcript of a source into a sink, with the configuration of these bytes, and answers the
/// status of the program. No bytes are given where they can't be read. A transcript has one outcome, whose
/// status is answered unless a read or a write failed or memory ran out.
///
/// | Status | Comes |
/// |---|---|
/// | 0 | the transcript was read to its end |
/// | 2 | the words aren't `replay` with at most one more; the usage line is written |
/// | 3 | there is no configuration; a line says why |
/// | 4 | a line isn't a transcript line; it was read to its line end, or the source to its end, and is named last |
/// | 5 | a read of the source failed |
/// | 6 | a write to the sink failed |
/// | 7 | want of memory |
/// | 8 | a line is longer than `LONGEST_LINE`; it is named last |
pub fn replay<S: Source, K: Sink>(
    alloc: Global,
    words: &[Text],
    config: Option<&[u8]>,
    source: &mut S,
    sink: &mut K,
) -> u8
    ensures words { (result ≡ 2) ↔ (is_replay words.now ≡ false) }
    ensures usage { result ≡ 2 → WritesLast usage_line (K.told sink.old) (K.told sink.new) (Rose (K.faults sink.old) (K.faults sink.new)) }
    ensures refused { result ≡ 3 → (is_replay words.now ≡ true) × IsErr (config_or_line (option_copied config.entry)) }
    ensures declined { is_replay words.now ≡ true → IfErr (config_or_line (option_copied config.entry))
        (λ line. Declines line result (K.told sink.old) (K.told sink.new) (Rose (K.faults sink.old) (K.faults sink.new))) }
    ensures unread { ((result ≡ 2) ⊎ (result ≡ 3)) → source.new ≡ source.old }
    ensures ran { is_replay words.now ≡ true → IfOk (config_or_line (option_copied config.entry)) (λ c. (ending : Ending) × (result ≡ status_of ending)
        × Ran c (S.left source.old) (S.left source.new) (K.told sink.old) (K.told sink.new) (Rose (K.faults sink.old) (K.faults sink.new)) ending) }
    ensures complete { is_replay words.now ≡ true → IfOk (config_or_line (option_copied config.entry)) (λ c. IfSome (S.left source.old) (λ bytes.
        IsPlayable c bytes → ¬ Rose (S.faults source.old) (S.faults source.new) → ¬ Rose (K.faults sink.old) (K.faults sink.new)
        → (result ≡ 0) ⊎ (result ≡ 7))) }
    ensures exact { is_replay words.now ≡ true → IfOk (config_or_line (option_copied config.entry)) (λ c. IfSome (S.left source.old) (λ bytes.
        (o : Outcome) → HasOutcome c bytes o → AnswersOutcome o result (K.told sink.old) (K.told sink.new) (Rose (K.faults sink.old) (K.faults sink.new)))) }
    ensures not_a_line { result ≡ 4 → IfOk (config_or_line (option_copied config.entry)) (λ c.
        (r : Refusal c 4 error_line (S.left source.old) (S.left source.new) K K.told K.faults sink.old sink.new) × IsReadTo r.number r.read (S.left source.new)) }
    ensures long_line { result ≡ 8 → IfOk (config_or_line (option_copied config.entry)) (λ c.
        Refusal c 8 long_line (S.left source.old) (S.left source.new) K K.told K.faults sink.old sink.new) }
    ensures read_fault { result ≡ 5 → Rose (S.faults source.old) (S.faults source.new) }
    ensures write_fault { result ≡ 6 → Rose (K.faults sink.old) (K.faults sink.new) }
{
    if !is_replay(words) {
        write_last(sink, "usage: channelsd replay [config]\n");
        return 2;
    }
    let Some(bytes) = config else {
        write_last(sink, "config unread\n");
        return 3;
    };
    match read_config(alloc, bytes) {
        Ok(config) => status_of(replay_lines(alloc, config, source, sink)),
        Err(fault) => decline(alloc, fault, sink),
    }
}

fn status_of(ending: Ending) -> u8
    ensures { result ≡ status_of ending }
{
    match ending {
        Ending::Done => 0,
        Ending::NotALine => 4,
        Ending::ReadFailed => 5,
        Ending::WriteFailed => 6,
        Ending::Memory => 7,
        Ending::LongLine => 8,
    }
}

fn is_replay(words: &[Text]) -> bool
    ensures { result ≡ is_replay words.now }
{
    match words {
        [word] | [word, _] => word.as_str() == "replay",
        _ => false,
    }
}

/// Replays line by line: the output of a line is written before the next one is read.
fn replay_lines<S: Source, K: Sink>(
    alloc: Global,
    config: Config,
    source: &mut S,
    sink: &mut K,
) -> Ending
    requires { IsConfig config }
    ensures ran { Ran config (S.left source.old) (S.left source.new) (K.told sink.old) (K.told sink.new) (Rose (K.faults sink.old) (K.faults sink.new)) result }
    ensures read_fault { result ≡ Ending.ReadFailed → Rose (S.faults source.old) (S.faults source.new) }
    ensures write_fault { result ≡ Ending.WriteFailed → Rose (K.faults sink.old) (K.faults sink.new) }
    ensures named { Names config (S.left source.old) (S.left source.new) K K.told K.faults sink.old sink.new result }
{
    let Ok(mut player) = Player::new(alloc, config) else {
        return Ending::Memory;
    };
    let mut reader = LineReader::new();
    let mut line = Vec::new(alloc);
    let mut out = Vec::new(alloc);
    let mut number: u64 = 1;
    'lines: loop {
        match reader.next(source, &mut line) {
            Next::Whole => match serve(&mut player, line.as_slice(), &mut out, sink) {
                Ok(()) => number += 1,
                Err(ending) => return end_at(alloc, sink, ending, number),
            },
            Next::Last => match serve(&mut player, line.as_slice(), &mut out, sink) {
                Ok(()) => return Ending::Done,
                Err(ending) => return end_at(alloc, sink, ending, number),
            },
            Next::Ended => return Ending::Done,
            Next::Long => return end_at(alloc, sink, Ending::LongLine, number),
            Next::Failed => return Ending::ReadFailed,
            Next::Memory => return Ending::Memory,
        }
    }
}

/// Plays a line, and writes its output.
fn serve<K: Sink>(
    player: &mut Player,
    line: &[u8],
    out: &mut Vec<u8>,
    sink: &mut K,
) -> Result<(), Ending>
    requires sound { IsSoundPlayer player.old }
    ensures serves { (p : Progress) → IsAt player.old p → MatchResult result
        (λ _. Serves player.new (K.told sink.old) (K.told sink.new) (Plays (config_of player.old) p line.now))
        (λ ending. Stops ending (K.told sink.old) (K.told sink.new) (Plays (config_of player.old) p line.now)) }
    ensures sound { OnOk result (IsSoundPlayer player.new) }
    ensures over { config_of player.new ≡ config_of player.old }
    ensures later { K.faults sink.old ≤ K.faults sink.new }
    ensures failed { result ≡ Err Ending.WriteFailed → Rose (K.faults sink.old) (K.faults sink.new) }
{
    out.clear();
    match player.play(line, out) {
        Ok(()) => {}
        Err(LineFault::NotALine) => return Err(Ending::NotALine),
        Err(LineFault::Memory) => return Err(Ending::Memory),
    }
    match write_all(sink, out.as_slice()) {
        Ok(()) => Ok(()),
        Err(_) => Err(Ending::WriteFailed),
    }
}

/// Names the line that ended the replay, where it is one to be named.
fn end_at<K: Sink>(alloc: Global, sink: &mut K, ending: Ending, number: u64) -> Ending
    ensures ends { EndsAt ending number result (K.told sink.old) (K.told sink.new) (Rose (K.faults sink.old) (K.faults sink.new)) }
    ensures later { K.faults sink.old ≤ K.faults sink.new }
    ensures only { (result ≡ ending) ⊎ (result ≡ Ending.Memory) }
{
    let named = match ending {
        Ending::NotALine => error_line(alloc, number),
        Ending::LongLine => long_line(alloc, number),
        Ending::Done | Ending::ReadFailed | Ending::WriteFailed | Ending::Memory => return ending,
    };
    match named {
        Ok(line) => write_last(sink, line.as_str()),
        Err(_) => return Ending::Memory,
    }
    ending
}

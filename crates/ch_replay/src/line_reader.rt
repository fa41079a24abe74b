ghost use Rattle.std.specs.Prelude.{◌≡◌, ℕ, ◌+◌, ◌<◌, ◌≤◌, [], true, false, length, take, slice_index, MatchOption, MatchResult, MatchBool};
ghost use Rattle.std.specs.Io.KnownBytes.{Consumes, IsAtEnd};
ghost use Rattle.ch_io.specs.Counts.{Rose};
ghost use Rattle.ch_transcript.specs.Lines.{has_byte};

use ch_base::Memory;
use ch_io::{Got, Source};
use ch_transcript::LONGEST_LINE;
use std::marker::Model;

/// How many bytes are read at once at most.
pub(crate) const PIECE: usize = 4_096;

/// What the reader gives next.
#[derive(Clone, Copy, Debug, PartialEq, Eq)]
pub enum Next {
    /// A line whose end was read.
    Whole,
    /// The last line, which lacks its end.
    Last,
    Ended,
    /// More bytes without a line end than a line may have.
    Long,
    Failed,
    Memory,
}

/// A reader of lines. Contracts see the bytes that it has read and not given.
#[derive(Drop)]
pub struct LineReader {
    piece: [u8; PIECE],
    from: usize,
    to: usize,
}

impl Model for LineReader {
    ghost use Rattle.std.specs.Prelude.{◌-◌, ◌≤◌, List, ℕ, take, drop};
    ghost use Rattle.ch_replay.specs.declared.line_reader.TheConstants.{PIECE};

    ghost Value = { List ℕ };

    ghost view = { λ r. take (r.to - r.from) (drop r.from r.piece) };

    ghost invariant = { λ r. (r.from ≤ r.to) × (r.to ≤ PIECE) };
}

impl LineReader {
    ghost use Rattle.ch_replay.specs.Reading.{TakesToEnd, TakesAll, ReadsLine};

    pub fn new() -> LineReader
        ensures { result ≡ [] }
    {
        LineReader {
            piece: [0; PIECE],
            from: 0,
            to: 0,
        }
    }

    /// Adds the held bytes to the line, up to a line end.
    fn take_line(&mut self, line: &mut Vec<u8>) -> Result<bool, Memory>
        ensures { MatchResult result
            (λ is_whole. MatchBool is_whole (TakesToEnd self.old self.new line.old.items line.new.items) (TakesAll self.old self.new line.old.items line.new.items))
            (λ _. Unit {0}) }
    {
        let pending = &self.piece[self.from..self.to];
        match place_of(pending, b'\n') {
            Some(i) => {
                if line.extend_from_slice(&pending[..i]).is_err() {
                    return Err(Memory);
                }
                self.from += i + 1;
                Ok(true)
            }
            None => {
                if line.extend_from_slice(pending).is_err() {
                    return Err(Memory);
                }
                self.from = self.to;
                Ok(false)
            }
        }
    }

    /// Reads once, where nothing is held.
    fn refill<S: Source>(&mut self, source: &mut S) -> Got
        ensures bytes { Consumes (S.left source.old) (S.left source.new) self.new }
        ensures read { (n : ℕ) → result ≡ Got.Read n → 0 < length self.new }
        ensures none { result ≡ Got.Failed → self.new ≡ [] }
        ensures ended { result ≡ Got.Ended → (self.new ≡ []) × IsAtEnd (S.left source.new) }
        ensures limit { length self.new + S.limit source.new ≤ S.limit source.old }
        ensures later { S.faults source.old ≤ S.faults source.new }
        ensures failed { result ≡ Got.Failed → Rose (S.faults source.old) (S.faults source.new) }
    {
        self.from = 0;
        self.to = 0;
        let got = source.read(&mut self.piece);
        if let Got::Read(n) = got {
            self.to = n;
        }
        got
    }

    /// Gives the next line. It reads only where no line end is held.
    pub fn next<S: Source>(&mut self, source: &mut S, line: &mut Vec<u8>) -> Next
        ensures gives { ReadsLine (S.left source.old) (S.left source.new) (S.limit source.old) (S.limit source.new) self.old result line.new.items self.new }
        ensures later { S.faults source.old ≤ S.faults source.new }
        ensures failed { result ≡ Next.Failed → Rose (S.faults source.old) (S.faults source.new) }
        ensures small { S.limit source.new ≤ S.limit source.old }
    {
        line.clear();
        'pieces: loop {
            match self.take_line(line) {
                Err(_) => return Next::Memory,
                Ok(_) if line.len() > LONGEST_LINE => return Next::Long,
                Ok(true) => return Next::Whole,
                Ok(false) => {}
            }
            match self.refill(source) {
                Got::Read(_) => {}
                Got::Ended if line.is_empty() => return Next::Ended,
                Got::Ended => return Next::Last,
                Got::Failed => return Next::Failed,
            }
        }
    }
}

/// The place of the first such byte.
fn place_of(bytes: &[u8], byte: u8) -> Option<usize>
    ensures { MatchOption result (has_byte byte bytes.now ≡ false)
        (λ i. (i < length bytes.now) × (has_byte byte (take i bytes.now) ≡ false) × (slice_index bytes.now i ≡ byte)) }
{
    for (i, b) in bytes.iter().enumerate() {
        if *b == byte {
            return Some(i);
        }
    }
    None
}

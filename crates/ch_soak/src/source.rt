//! The transcript as a source, a line at a time.
ghost use Rattle.std.specs.Prelude.{◌≤◌, ◌^◌, length, string_bytes};

use crate::generator::{line_at, state_after};
use crate::words::Soak;
use ch_base::Memory;
use ch_io::{Got, Source};
use std::alloc::Global;

/// The most bytes of a source.
const MOST: u64 = 1 << 62;

/// The transcript of a soak as a source. It holds one line at a time, and tells what is left in it. A read that finds no
/// memory for the next line fails.
#[derive(Drop)]
pub struct Drawn {
    alloc: Global,
    line: String,
    /// How many bytes of the line were given.
    given: usize,
    /// The number of the line after it.
    number: u64,
    /// How many lines the transcript has.
    lines: u64,
    /// The state that the next line is drawn from.
    state: u64,
    faults: u64,
    limit: u64,
    ghost within: { given ≤ length (string_bytes line) },
    ghost counted: { number ≤ lines },
    ghost limited: { limit ≤ 2 ^ 62 },
}

impl Drawn {
    ghost use Rattle.std.specs.Prelude.{◌≡◌, OnOk};
    ghost use Rattle.ch_soak.specs.Generator.{transcript};
    ghost use Rattle.ch_soak.specs.Drawing.{left_of, IsReady};

    /// The whole transcript.
    pub fn new(alloc: Global, soak: &Soak) -> Drawn
        ensures { left_of result ≡ transcript soak.now }
    {
        Drawn {
            alloc,
            line: String::new(alloc),
            given: 0,
            number: 0,
            lines: soak.lines,
            state: soak.seed,
            faults: 0,
            limit: MOST,
        }
    }

    /// Draws the next line, where the last one was given whole.
    fn refill(&mut self) -> Result<(), Memory>
        ensures left { left_of self.new ≡ left_of self.old }
        ensures faults { self.new.faults ≡ self.old.faults }
        ensures limit { self.new.limit ≡ self.old.limit }
        ensures ready { OnOk result (IsReady self.new) }
    {
        if self.given < self.line.len() || self.number == self.lines {
            return Ok(());
        }
        let line = line_at(self.alloc, self.number, self.state)?;
        self.line = line;
        self.given = 0;
        self.state = state_after(self.number, self.state);
        self.number += 1;
        Ok(())
    }
}

impl Source for Drawn {
    ghost use Rattle.std.specs.Prelude.{◌^◌, Some};
    ghost use Rattle.ch_soak.specs.Drawing.{left_of};

    ghost left = { λ s. Some (left_of s) };

    ghost faults = { λ s. s.faults };

    ghost limit = { λ s. s.limit };

    ghost small = { λ s. s.limited };

    fn read(&mut self, buf: &mut [u8]) -> Got {
        if self.limit == 0 || self.refill().is_err() {
            self.faults = self.faults.saturating_add(1);
            return Got::Failed;
        }
        let rest = &self.line.as_bytes()[self.given..];
        if rest.is_empty() {
            return Got::Ended;
        }
        let n = buf.len().min(rest.len()).min(self.limit as usize);
        buf[..n].copy_from_slice(&rest[..n]);
        self.given += n;
        self.limit -= n as u64;
        Got::Read(n)
    }
}

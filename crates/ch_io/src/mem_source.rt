ghost use Rattle.std.specs.Prelude.{◌≡◌, ◌≤◌, ◌^◌, Some};

use crate::schedule::Schedule;
use crate::source::{Got, Source};
use std::marker::Model;

const MOST: u64 = 1 << 62;

/// A source over memory. It tells what is left in it.
#[derive(Debug, Drop)]
pub struct MemSource {
    bytes: Vec<u8>,
    at: usize,
    schedule: Schedule,
    faults: u64,
    limit: u64,
}

impl Model for MemSource {
    ghost use Rattle.std.specs.Prelude.{◌≤◌, ◌^◌, Some, drop, vec_len};
    ghost use Rattle.ch_io.specs.Reads.{SourceTold};

    ghost Value = { SourceTold };

    ghost view = { λ s. record { left = Some (drop s.at s.bytes.items); faults = s.faults; limit = s.limit } };

    ghost invariant = { λ s. (s.at ≤ vec_len s.bytes) × (s.limit ≤ 2 ^ 62) };
}

impl MemSource {
    /// A source of these bytes, whose reads go by a [`Schedule`] of these sizes and failing numbers.
    pub fn new(bytes: Vec<u8>, pieces: Vec<usize>, failing: Vec<usize>) -> MemSource
        ensures { result ≡ record { left = Some bytes.items; faults = 0; limit = 2 ^ 62 } }
    {
        MemSource {
            bytes,
            at: 0,
            schedule: Schedule::new(pieces, failing),
            faults: 0,
            limit: MOST,
        }
    }
}

impl Source for MemSource {
    ghost left = { λ s. s.left };

    ghost faults = { λ s. s.faults };

    ghost use Rattle.std.specs.Prelude.{◌^◌, min};
    ghost use Rattle.std.proofs.Common.{arith};

    ghost limit = { λ s. min s.limit (2 ^ 62) };

    ghost small = { λ s. Prim.omega arith };

    fn read(&mut self, buf: &mut [u8]) -> Got {
        let piece = match self.schedule.next() {
            Some(piece) if self.limit > 0 => piece,
            _ => {
                self.faults = self.faults.saturating_add(1);
                return Got::Failed;
            }
        };
        let rest = &self.bytes[self.at..];
        if rest.is_empty() {
            return Got::Ended;
        }
        let n = piece
            .min(buf.len())
            .min(rest.len())
            .min(self.limit as usize);
        buf[..n].copy_from_slice(&rest[..n]);
        self.at += n;
        self.limit -= n as u64;
        Got::Read(n)
    }
}

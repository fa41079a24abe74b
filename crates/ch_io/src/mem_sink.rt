ghost use Rattle.std.specs.Prelude.{◌≡◌, [], Some};

use crate::schedule::Schedule;
use crate::sink::{Sink, Wrote};
use std::alloc::Global;
use std::marker::Model;

/// A sink over memory. It tells what it holds.
#[derive(Debug, Drop)]
pub struct MemSink {
    bytes: Vec<u8>,
    schedule: Schedule,
    faults: u64,
}

impl Model for MemSink {
    ghost use Rattle.std.specs.Prelude.{Some};
    ghost use Rattle.ch_io.specs.Writes.{SinkTold};

    ghost Value = { SinkTold };

    ghost view = { λ s. record { held = Some s.bytes.items; faults = s.faults } };
}

impl MemSink {
    /// An empty sink, whose writes go by a [`Schedule`] of these sizes and failing numbers. A write
    /// that finds no memory fails too.
    pub fn new(alloc: Global, pieces: Vec<usize>, failing: Vec<usize>) -> MemSink
        ensures { result ≡ record { held = Some []; faults = 0 } }
    {
        MemSink {
            bytes: Vec::new(alloc),
            schedule: Schedule::new(pieces, failing),
            faults: 0,
        }
    }

    /// The bytes that it holds.
    pub fn as_slice(&self) -> &[u8]
        ensures { Some result.now ≡ self.now.held }
    {
        self.bytes.as_slice()
    }
}

impl Sink for MemSink {
    ghost told = { λ s. s.held };

    ghost faults = { λ s. s.faults };

    fn write(&mut self, bytes: &[u8]) -> Wrote {
        if let Some(piece) = self.schedule.next() {
            let n = piece.min(bytes.len());
            if self.bytes.extend_from_slice(&bytes[..n]).is_ok() {
                return Wrote::Wrote(n);
            }
        }
        self.faults = self.faults.saturating_add(1);
        Wrote::Failed
    }
}

//! What is kept of an output.
ghost use Rattle.std.specs.Prelude.{◌≡◌, ◌≤◌, ◌++◌, [], Some, IfSome, length, take};
ghost use Rattle.sha2.specs.Sha256.{sha256};
ghost use Rattle.ch_soak.specs.Summed.{shown};

use ch_io::{Sink, Wrote};
use sha2::{Digest, Sha256};
use std::alloc::Global;
use std::marker::Model;
use std::snapshot::Snapshot;

/// A sink that keeps of its bytes only how many they are and their SHA-256 (FIPS 180-4). Contracts see the bytes: it counts
/// them by snapshots, which have no bytes themselves. A write that finds no memory fails.
#[derive(Drop)]
pub struct Summing {
    hasher: Sha256,
    seen: Vec<Snapshot<u8>>,
    faults: u64,
}

impl Model for Summing {
    ghost use Rattle.std.specs.Prelude.{Some};
    ghost use Rattle.ch_io.specs.Writes.{SinkTold};
    ghost use Rattle.sha2.specs.Hashers.{Holds256};
    ghost use Rattle.ch_soak.specs.Summed.{shown};

    ghost Value = { SinkTold };

    ghost view = { λ s. record { held = Some (shown s.seen.items); faults = s.faults } };

    ghost invariant = { λ s. Holds256 s.hasher (shown s.seen.items) };
}

impl Summing {
    /// Nothing was written yet.
    pub fn new(alloc: Global) -> Summing
        ensures { result ≡ record { held = Some []; faults = 0 } }
    {
        Summing {
            hasher: Sha256::new(),
            seen: Vec::new(alloc),
            faults: 0,
        }
    }

    /// How many bytes were written.
    pub fn len(&self) -> usize
        ensures { IfSome self.now.held (λ bytes. result ≡ length bytes) }
    {
        self.seen.len()
    }

    /// The SHA-256 of the bytes.
    pub fn finish(self) -> [u8; 32]
        ensures { IfSome self.held (λ bytes. result ≡ sha256 bytes) }
    {
        let Summing {
            hasher,
            seen: _,
            faults: _,
        } = self;
        hasher.finalize()
    }
}

impl Sink for Summing {
    ghost told = { λ s. s.held };

    ghost faults = { λ s. s.faults };

    fn write(&mut self, bytes: &[u8]) -> Wrote {
        let count = show(&mut self.seen, bytes);
        if count > 0 {
            self.hasher.update(&bytes[..count]);
            return Wrote::Wrote(count);
        }
        self.faults = self.faults.saturating_add(1);
        Wrote::Failed
    }
}

/// Shows bytes, up to the first that finds no memory, and answers how many.
fn show(seen: &mut Vec<Snapshot<u8>>, bytes: &[u8]) -> usize
    ensures few { result ≤ length bytes.now }
    ensures shown { shown seen.new.items ≡ shown seen.old.items ++ take result bytes.now }
{
    for (i, byte) in bytes.iter().enumerate() {
        if seen.push(Snapshot::of(byte)).is_err() {
            return i;
        }
    }
    bytes.len()
}

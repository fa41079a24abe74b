ghost use Rattle.std.specs.Prelude.{◌≡◌, ◌≤◌, ◌^◌};

use crate::source::{Got, Source};
use std::io::Read;
use std::marker::Model;

const MOST: u64 = 1 << 62;

/// A reader of std as a source: a file, standard input, or bytes in memory.
///
/// Each error of the reader is a fault. So is a read after 2^62 bytes.
#[derive(Debug, Drop)]
pub struct ReaderSource<R: Read> {
    inner: R,
    faults: u64,
    limit: u64,
}

impl<R: Read> Model for ReaderSource<R> {
    ghost use Rattle.std.specs.Prelude.{◌≤◌, ◌^◌};
    ghost use Rattle.ch_io.specs.Reads.{SourceTold};

    ghost Value = { SourceTold };

    ghost view = { λ s. record { left = R.remaining s.inner; faults = s.faults; limit = s.limit } };

    ghost invariant = { λ s. s.limit ≤ 2 ^ 62 };
}

impl<R: Read> ReaderSource<R> {
    /// A source of all that the reader has left. No fault was counted yet.
    pub fn new(inner: R) -> ReaderSource<R>
        ensures { result ≡ record { left = R.remaining inner; faults = 0; limit = 2 ^ 62 } }
    {
        ReaderSource {
            inner,
            faults: 0,
            limit: MOST,
        }
    }
}

impl<R: Read> Source for ReaderSource<R> {
    ghost left = { λ s. s.left };

    ghost faults = { λ s. s.faults };

    ghost use Rattle.std.specs.Prelude.{◌^◌, min};
    ghost use Rattle.std.proofs.Common.{arith};

    ghost limit = { λ s. min s.limit (2 ^ 62) };

    ghost small = { λ s. Prim.omega arith };

    fn read(&mut self, buf: &mut [u8]) -> Got {
        let most = buf.len().min(self.limit as usize);
        if most > 0 {
            match self.inner.read(&mut buf[..most]) {
                Ok(0) => return Got::Ended,
                Ok(n) => {
                    self.limit -= n as u64;
                    return Got::Read(n);
                }
                Err(_) => {}
            }
        }
        self.faults = self.faults.saturating_add(1);
        Got::Failed
    }
}

ghost use Rattle.std.specs.Prelude.{◌≡◌};

use crate::sink::{Sink, Wrote};
use std::io::Write;
use std::marker::Model;

/// A writer of std as a sink: a file, standard output, or bytes in memory.
///
/// Each error of the writer is a fault, and so is a write that takes no byte.
#[derive(Debug, Drop)]
pub struct WriterSink<W: Write> {
    inner: W,
    faults: u64,
}

impl<W: Write> Model for WriterSink<W> {
    ghost use Rattle.ch_io.specs.Writes.{SinkTold};

    ghost Value = { SinkTold };

    ghost view = { λ s. record { held = W.contents s.inner; faults = s.faults } };
}

impl<W: Write> WriterSink<W> {
    /// A sink that holds what the writer holds. No fault was counted yet.
    pub fn new(inner: W) -> WriterSink<W>
        ensures { result ≡ record { held = W.contents inner; faults = 0 } }
    {
        WriterSink { inner, faults: 0 }
    }
}

impl<W: Write> Sink for WriterSink<W> {
    ghost told = { λ s. s.held };

    ghost faults = { λ s. s.faults };

    fn write(&mut self, bytes: &[u8]) -> Wrote {
        if let Ok(n) = self.inner.write(bytes) {
            if n > 0 {
                return Wrote::Wrote(n);
            }
        }
        self.faults = self.faults.saturating_add(1);
        Wrote::Failed
    }
}

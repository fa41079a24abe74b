ghost use Rattle.std.specs.Prelude.{◌≡◌, ℕ, ◌<◌, ◌≤◌, List, Option, length, take, OnErr, OnOk};
ghost use Rattle.std.specs.Io.KnownBytes.{Appends};
ghost use Rattle.ch_io.specs.Counts.{Rose};
ghost use Rattle.ch_io.specs.Writes.{taken, IsPart, WritesLast};

/// What a write answers.
#[derive(Clone, Copy, Debug, PartialEq, Eq)]
pub enum Wrote {
    /// So many bytes were taken, at least one.
    Wrote(usize),
    /// The write failed, and the count of faults rose.
    Failed,
}

/// A write failed.
#[derive(Clone, Copy, Debug, PartialEq, Eq)]
pub struct WriteFailed;

/// Where bytes go to.
pub trait Sink {
    /// The bytes that it holds, where they are told.
    ghost told: { Self → Option (List ℕ) };

    /// How many writes have failed. The count never falls, and stands still at its type's end.
    ghost faults: { Self → ℕ };

    /// Writes the front of the bytes, of which there is at least one.
    fn write(&mut self, bytes: &[u8]) -> Wrote
        requires { 0 < length bytes.now }
        ensures part { IsPart result bytes.now }
        ensures bytes { Appends (told self.old) (told self.new) (taken result bytes.now) }
        ensures later { faults self.old ≤ faults self.new }
        ensures failed { result ≡ Wrote.Failed → Rose (faults self.old) (faults self.new) };
}

/// Writes all the bytes, in order, up to the first write that fails. Then the sink holds a front of them.
pub fn write_all<K: Sink>(sink: &mut K, bytes: &[u8]) -> Result<(), WriteFailed>
    ensures ok { OnOk result (Appends (K.told sink.old) (K.told sink.new) bytes.now) }
    ensures err { OnErr result ((n : ℕ) × Appends (K.told sink.old) (K.told sink.new) (take n bytes.now)) }
    ensures later { K.faults sink.old ≤ K.faults sink.new }
    ensures failed { OnErr result (Rose (K.faults sink.old) (K.faults sink.new)) }
{
    let mut at = 0;
    while at < bytes.len() {
        match sink.write(&bytes[at..]) {
            Wrote::Wrote(n) => at += n,
            Wrote::Failed => return Err(WriteFailed),
        }
    }
    Ok(())
}

/// Writes a line as the last one. That this fails is not told.
pub fn write_last<K: Sink>(sink: &mut K, line: &str)
    ensures names { WritesLast line.now (K.told sink.old) (K.told sink.new) (Rose (K.faults sink.old) (K.faults sink.new)) }
    ensures later { K.faults sink.old ≤ K.faults sink.new }
{
    let _ = write_all(sink, line.as_bytes());
}

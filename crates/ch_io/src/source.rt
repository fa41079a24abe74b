ghost use Rattle.std.specs.Prelude.{◌≡◌, ℕ, ◌+◌, ◌^◌, ◌<◌, ◌≤◌, List, Option, length};
ghost use Rattle.std.specs.Io.KnownBytes.{Consumes, IsAtEnd};
ghost use Rattle.ch_io.specs.Counts.{Rose};
ghost use Rattle.ch_io.specs.Reads.{given, IsWithin};

/// What a read answers.
#[derive(Clone, Copy, Debug, PartialEq, Eq)]
pub enum Got {
    /// So many bytes were given, at least one.
    Read(usize),
    /// There are no more bytes.
    Ended,
    /// The read failed, and the count of faults rose.
    Failed,
}

/// Where bytes come from.
///
/// A source gives at most 2^62 bytes. It can be read again after a failed read: that read gave nothing.
pub trait Source {
    /// The bytes that are left, where they are told.
    ghost left: { Self → Option (List ℕ) };

    /// How many reads have failed. The count never falls, and stands still at its type's end.
    ghost faults: { Self → ℕ };

    /// How many more bytes it gives at most.
    ghost limit: { Self → ℕ };

    /// Reads some bytes into the front of the buffer, which isn't empty.
    fn read(&mut self, buf: &mut [u8]) -> Got
        requires { 0 < length buf.old }
        ensures within { IsWithin result buf.new }
        ensures bytes { Consumes (left self.old) (left self.new) (given result buf.new) }
        ensures ended { result ≡ Got.Ended → IsAtEnd (left self.new) }
        ensures limit { length (given result buf.new) + limit self.new ≤ limit self.old }
        ensures later { faults self.old ≤ faults self.new }
        ensures failed { result ≡ Got.Failed → Rose (faults self.old) (faults self.new) };

    ghost small: { (s : Self) → limit s ≤ 2 ^ 62 };
}

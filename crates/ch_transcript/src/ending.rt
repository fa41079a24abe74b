/// How a replay ends, whose words ask for one.
#[derive(Clone, Copy, Debug, PartialEq, Eq)]
pub enum Ending {
    /// The transcript was read to its end.
    Done,
    /// A line isn't a transcript line.
    NotALine,
    /// A line is too long.
    LongLine,
    /// A read of the source failed.
    ReadFailed,
    /// A write to the sink failed.
    WriteFailed,
    /// There was no memory.
    Memory,
}

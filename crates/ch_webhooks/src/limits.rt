/// A batch has so many events at most.
pub const BATCH_EVENTS: usize = 50;

/// The greatest number of a batch: 2^62.
pub const GREATEST_NUMBER: u64 = 1 << 62;

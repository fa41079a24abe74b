/// The fewest lines of a soak: each opens a connection.
pub const FEWEST_LINES: u64 = 8;

/// The most lines of a soak.
pub const MOST_LINES: u64 = 20_000;

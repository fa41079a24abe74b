/// The most workers of a drill.
pub const MOST_WORKERS: u64 = 16;

/// The most rounds of a drill.
pub const MOST_ROUNDS: u64 = 1_000;

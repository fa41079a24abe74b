/// A batch is given up after so many tries.
pub const MOST_TRIES: u64 = 8;

/// How long a batch waits after its first try, in milliseconds. After each further try it waits twice as long.
pub const FIRST_DELAY: u64 = 1_000;

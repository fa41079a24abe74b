//! The bounds of a configuration, and what stands where a field isn't given.
use ch_base::MAX_CALLERS;

/// The longest id or key of an app, in bytes.
pub const LONGEST_WORD: usize = 64;

/// The longest secret of an app, in bytes.
pub const LONGEST_SECRET: usize = 128;

/// The most shards of a kind.
pub const MAX_SHARDS: u64 = 64;

/// So many shards of a kind there are where no number is given.
pub const DEFAULT_SHARDS: u64 = 4;

/// The most workers. Each is a caller of every shard, and one caller more takes the webhooks.
pub const MAX_WORKERS: u64 = MAX_CALLERS - 1;

/// So many workers there are where no number is given.
pub const DEFAULT_WORKERS: u64 = 2;

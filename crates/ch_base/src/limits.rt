/// How many brackets of a JSON text may be open.
pub const MAX_DEPTH: usize = 64;

/// The latest moment of a call, in milliseconds.
pub const LATEST_MOMENT: u64 = 1_000_000_000_000_000;

/// The most callers of a shard, of which each has a number below this one: its workers, and who takes the webhooks.
pub const MAX_CALLERS: u64 = 64;

//! The limits of channels and users (Pusher Channels documentation), and what places them on shards.

/// The longest name of a channel or an event, in bytes ("Channels", "Channel naming conventions", and HTTP API, "POST
/// event").
pub const MAX_NAME: u64 = 200;

/// The longest id of a user, in bytes ("Presence channels", "Limits").
pub const MAX_USER_ID: u64 = 128;

/// So many users fill a presence channel ("Presence channels", "Limits").
pub const MAX_USERS: u64 = 100;

/// A cached event is kept for so many milliseconds ("Cache channels").
pub const CACHED_FOR: u64 = 1_800_000;

/// A vacated notice is held for so many milliseconds.
pub const HELD_FOR: u64 = 3_000;

/// So many of a shard's last calls are shown.
pub const LONGEST_TAIL: usize = 1_024;

/// The hash of no bytes (FNV-1a of 64 bits, IETF draft-eastlake-fnv, section 5).
pub const FNV_OFFSET: u64 = 14_695_981_039_346_656_037;

/// By what the hash is multiplied at each byte (FNV-1a of 64 bits, IETF draft-eastlake-fnv, section 5).
pub const FNV_PRIME: u64 = 1_099_511_628_211;

/// At most so many client events are accepted in a window (Pusher Channels protocol, "Client events").
pub const LIMIT: usize = 10;

/// The window's length in milliseconds.
pub const WINDOW: u64 = 1_000;

/// A ping is due after so many milliseconds of silence.
pub const SILENCE: u64 = 120_000;

/// A connection has so many milliseconds for its answer to a ping.
pub const PATIENCE: u64 = 30_000;

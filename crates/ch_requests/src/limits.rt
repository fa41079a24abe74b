//! The limits of requests (Pusher Channels documentation, HTTP API).

/// The most bytes of a head.
pub const LONGEST_HEAD: usize = 8_192;

/// The most line ends of a head.
pub const MOST_LINES: usize = 66;

/// The longest body, in bytes.
pub const LONGEST_CONTENT: u64 = 1_048_576;

/// How long a request may take until it is whole, in milliseconds.
pub const LONGEST_WAIT: u64 = 30_000;

/// By how many seconds a back end's clock may differ from the server's ("Authentication").
pub const MAX_DIFFERENCE: u64 = 600;

/// The longest data of an event, in bytes, unescaped ("POST event").
pub const LONGEST_DATA: u64 = 10_240;

/// The most channels of an event ("POST event").
pub const MOST_CHANNELS: u64 = 100;

/// The most events of a batch ("POST batch events").
pub const MOST_EVENTS: u64 = 10;

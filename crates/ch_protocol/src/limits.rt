//! The limits of a connection (Pusher Channels protocol, "Client events", and documentation, "Authorizing users" and
//! "Watchlist events").

/// The longest text of a client, in bytes.
pub const LONGEST_TEXT: usize = 65_536;

/// The longest name of a client event, in bytes.
pub const LONGEST_EVENT: usize = 200;

/// The longest body of a client event as it is spelled, in bytes.
pub const LONGEST_BODY: usize = 10_240;

/// The longest data of a member, in bytes.
pub const LONGEST_CHANNEL_DATA: usize = 2_048;

/// The most ids of a watchlist, repeated ones among them.
pub const LONGEST_WATCHLIST: u64 = 100;

/// The most subscriptions of a socket.
pub const MAX_SUBSCRIPTIONS: u64 = 1_024;

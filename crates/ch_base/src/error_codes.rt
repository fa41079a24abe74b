//! The codes of errors (Pusher Channels protocol, "Error codes"). Those from 4310 on are this server's own, in the
//! protocol's range 4300 to 4399 of other errors. What each means in words is `error_text`, in `specs/ErrorTexts.antt`.

/// The target names another app.
pub const UNKNOWN_APP: u16 = 4001;

/// The target has another path than that of an app.
pub const UNKNOWN_PATH: u16 = 4005;

/// The version of the protocol isn't a number.
pub const INVALID_VERSION: u16 = 4006;

/// Another version of the protocol than 7.
pub const UNSUPPORTED_VERSION: u16 = 4007;

/// The target tells no version of the protocol.
pub const NO_VERSION: u16 = 4008;

/// A sign-in with another signature, or the end of a user's connections.
pub const UNAUTHORIZED: u16 = 4009;

/// The connection reads its frames too slowly.
pub const OVER_CAPACITY: u16 = 4100;

/// No memory was left for all of what a message asks; the client connects again.
pub const RECONNECT: u16 = 4200;

/// No answer came to a ping.
pub const NO_PONG: u16 = 4201;

/// More client events than the rate allows.
pub const RATE_LIMIT_REACHED: u16 = 4301;

/// Not a message of the protocol.
pub const MALFORMED_MESSAGE: u16 = 4310;

/// An event that clients don't send.
pub const UNKNOWN_EVENT: u16 = 4311;

/// A channel of this name can't be subscribed to.
pub const INVALID_CHANNEL_NAME: u16 = 4312;

/// The socket is subscribed to the channel already.
pub const ALREADY_SUBSCRIBED: u16 = 4313;

/// The socket isn't subscribed to the channel.
pub const NOT_SUBSCRIBED: u16 = 4314;

/// A subscribe that nothing authorizes.
pub const INVALID_SIGNATURE: u16 = 4315;

/// The data of a subscribe to a presence channel are nobody's.
pub const INVALID_CHANNEL_DATA: u16 = 4316;

/// Clients send no events on such a channel, or to such an app.
pub const CLIENT_EVENT_REFUSED: u16 = 4317;

/// A message over one of the limits in bytes.
pub const MESSAGE_TOO_LONG: u16 = 4318;

/// A socket has as many subscriptions as it may.
pub const TOO_MANY_SUBSCRIPTIONS: u16 = 4319;

/// A presence channel has as many users as it may.
pub const CHANNEL_FULL: u16 = 4320;

/// The data of a sign-in are nobody's.
pub const INVALID_USER_DATA: u16 = 4321;

/// The socket is signed in already.
pub const ALREADY_SIGNED_IN: u16 = 4322;

/// No memory was left for the message, of which nothing was done.
pub const OUT_OF_MEMORY: u16 = 4329;

ghost use Rattle.std.specs.Prelude.{◌≡◌};
ghost use Rattle.ch_base.specs.ErrorTexts.{error_text};

use ch_base::{
    ALREADY_SIGNED_IN, ALREADY_SUBSCRIBED, CHANNEL_FULL, CLIENT_EVENT_REFUSED,
    INVALID_CHANNEL_DATA, INVALID_CHANNEL_NAME, INVALID_SIGNATURE, INVALID_USER_DATA,
    INVALID_VERSION, MALFORMED_MESSAGE, MESSAGE_TOO_LONG, NO_PONG, NO_VERSION, NOT_SUBSCRIBED,
    OUT_OF_MEMORY, OVER_CAPACITY, RATE_LIMIT_REACHED, RECONNECT, TOO_MANY_SUBSCRIPTIONS,
    UNAUTHORIZED, UNKNOWN_APP, UNKNOWN_EVENT, UNKNOWN_PATH, UNSUPPORTED_VERSION,
};

/// What an error's code means, in words; empty for a code that isn't sent.
#[tactic(auto, unfolding(ch_base::specs::ErrorTexts::error_text))]
pub fn error_text(code: u16) -> &'static str
    ensures { result.now ≡ error_text code }
{
    match code {
        UNKNOWN_APP => "application does not exist",
        UNKNOWN_PATH => "path not found",
        INVALID_VERSION => "invalid version string format",
        UNSUPPORTED_VERSION => "unsupported protocol version",
        NO_VERSION => "no protocol version supplied",
        UNAUTHORIZED => "connection is unauthorized",
        OVER_CAPACITY => "over capacity",
        RECONNECT => "reconnect immediately",
        NO_PONG => "pong reply not received",
        RATE_LIMIT_REACHED => "client event rate limit reached",
        MALFORMED_MESSAGE => "malformed message",
        UNKNOWN_EVENT => "unknown event",
        INVALID_CHANNEL_NAME => "invalid channel name",
        ALREADY_SUBSCRIBED => "already subscribed",
        NOT_SUBSCRIBED => "not subscribed",
        INVALID_SIGNATURE => "invalid signature",
        INVALID_CHANNEL_DATA => "invalid channel data",
        CLIENT_EVENT_REFUSED => "client events are not allowed here",
        MESSAGE_TOO_LONG => "message over a limit",
        TOO_MANY_SUBSCRIPTIONS => "too many subscriptions",
        CHANNEL_FULL => "presence channel is full",
        INVALID_USER_DATA => "invalid user data",
        ALREADY_SIGNED_IN => "already signed in",
        OUT_OF_MEMORY => "out of memory",
        _ => "",
    }
}

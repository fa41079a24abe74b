use ch_base::{Text, TextList};

/// What a client says (Pusher Channels protocol, "Events that clients send").
#[derive(Debug, PartialEq, Eq, Drop)]
pub enum ClientMessage {
    /// A question whether the server is there.
    Ping,
    /// The answer to the server's ping.
    Pong,
    /// The socket subscribes to a channel. `auth` authorizes it, where the channel's kind needs that;
    /// `channel_data` tells who joins a presence channel.
    Subscribe {
        channel: Text,
        auth: Option<Text>,
        channel_data: Option<Text>,
    },
    /// The socket ends its subscription to a channel.
    Unsubscribe {
        channel: Text,
    },
    /// The socket signs a user in; `auth` authorizes it.
    SignIn {
        auth: Text,
        user_data: Text,
    },
    /// A client event; `body` is a JSON text as it is spelled.
    Say {
        channel: Text,
        event: Text,
        body: Text,
    },
}

/// Who signs in, and whom that user watches (Pusher Channels documentation, "User authentication" and
/// "Watchlist events").
#[derive(Debug, PartialEq, Eq, Drop)]
pub struct UserData {
    /// 1 to `MAX_USER_ID` bytes.
    pub id: Text,
    /// At most `LONGEST_WATCHLIST` ids, none of them twice.
    pub watchlist: TextList,
}

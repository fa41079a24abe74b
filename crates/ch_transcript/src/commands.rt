use ch_base::{Bytes, Text};

/// The method of a request (RFC 9110, section 9).
#[derive(Clone, Copy, Debug, PartialEq, Eq)]
pub enum Method {
    Get,
    Post,
}

/// What a line of a transcript asks for. Sockets are known by their numbers: the nth line that opens a
/// connection is that of socket n.
#[derive(Debug, Drop)]
pub enum Command {
    /// A connection is opened with this target, with the next number.
    Open {
        target: Text,
    },
    /// The socket says this text.
    Say {
        number: u64,
        text: Text,
    },
    /// The socket says that it subscribes to this channel, rightly authorized, with these data.
    Join {
        number: u64,
        channel: Text,
        channel_data: Option<Text>,
    },
    /// The socket says that it signs in the user of these data, rightly authorized.
    SignIn {
        number: u64,
        user_data: Text,
    },
    /// The socket is lost.
    Lose {
        number: u64,
    },
    /// The socket's silence is looked at.
    Tick {
        number: u64,
    },
    /// A back end publishes an event on a channel; all its sockets but the excepted one get it.
    Publish {
        channel: Text,
        event: Text,
        body: Text,
        except: Option<u64>,
    },
    /// The last calls on the channel shard with this number are shown.
    Tail {
        shard: u64,
    },
    /// The app's back end sends a request, rightly signed. The path and the query are ASCII without a blank, `#` and
    /// `?`; the query is empty where there is none.
    Api {
        method: Method,
        path: Text,
        query: Text,
        body: Text,
    },
    /// The webhook events that wait on the channel shards are taken and cut into batches, which are sent.
    Hooks,
    /// These bytes come as a request.
    Http {
        bytes: Bytes,
    },
}

/// A line of a transcript.
#[derive(Debug, Drop)]
pub enum Line {
    /// It is empty, or a comment.
    Skipped,
    /// A command at a moment, in milliseconds.
    Timed { at: u64, command: Command },
    /// It is no transcript line.
    Bad,
}

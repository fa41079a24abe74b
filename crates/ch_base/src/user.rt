use crate::frame_list::FrameList;
use crate::text::Text;

/// A call on a user shard. `at` is the moment of the call in milliseconds.
#[derive(Debug, PartialEq, Eq, Drop)]
pub enum UserCall {
    /// The socket signs in as the user.
    SignIn {
        socket: u64,
        user: Text,
        at: u64,
    },
    /// The socket watches whether the user is online.
    Watch {
        socket: u64,
        watched: Text,
        at: u64,
    },
    /// The socket is gone: its watches end, and then its sign-ins.
    Lost {
        socket: u64,
        at: u64,
    },
    /// The user's connections are to be closed.
    Terminate {
        user: Text,
        at: u64,
    },
    /// A back end sends an event to the user; `body` is a JSON string.
    SendTo {
        user: Text,
        event: Text,
        body: Text,
        at: u64,
    },
    /// The caller takes its frames.
    Take,
}

/// What a user shard answers.
#[derive(Debug, Drop)]
pub enum UserAnswer {
    SignedIn,
    /// The socket is signed in as this user already.
    AlreadyIn,
    Watching,
    AlreadyWatching,
    /// So many sign-ins and watches ended.
    Gone { signs: u64, watches: u64 },
    /// So many sockets of the user are to be closed.
    Killed { count: u64 },
    /// The event goes to so many sockets of the user.
    SentTo { count: u64 },
    Frames(FrameList),
}

use crate::channel::Member;
use crate::items::MemberList;
use crate::text::Text;

/// What a socket is sent (Pusher Channels protocol, events).
#[derive(Debug, PartialEq, Eq, Drop)]
pub enum Frame {
    /// `pusher:connection_established`, with the socket's number.
    Opened {
        number: u64,
    },
    /// `pusher:error`.
    Error {
        code: u16,
    },
    /// `pusher:ping`.
    Ping,
    /// `pusher:pong`.
    Pong,
    /// `pusher_internal:subscription_succeeded`.
    Succeeded {
        channel: Text,
    },
    /// The same on a presence channel, with its users, ascending by id.
    Present {
        channel: Text,
        rows: MemberList,
    },
    /// `pusher_internal:member_added`.
    Added {
        channel: Text,
        member: Member,
    },
    /// `pusher_internal:member_removed`.
    Removed {
        channel: Text,
        user_id: Text,
    },
    /// An event on a channel; `body` is a JSON text.
    Event {
        channel: Text,
        event: Text,
        body: Text,
        user_id: Option<Text>,
    },
    /// `pusher:cache_miss`.
    Miss {
        channel: Text,
    },
    /// `pusher:signin_success`.
    SignedIn {
        user_data: Text,
    },
    /// `pusher_internal:watchlist_events`, with one change of one user.
    Watch {
        online: bool,
        user_id: Text,
    },
    /// The connection is to be closed as unauthorized.
    Kill,
}

/// A frame and the number of the socket that it is for.
#[derive(Debug, PartialEq, Eq, Drop)]
pub struct FrameFor {
    pub socket: u64,
    pub frame: Frame,
}

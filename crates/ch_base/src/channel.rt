ghost use Rattle.std.specs.Prelude.{◌≡◌, IfOk};

use crate::frame_list::FrameList;
use crate::items::{HookList, NameRows, TextList};
use crate::memory::Memory;
use crate::text::Text;
use std::alloc::Global;

/// A member of a presence channel: its user id, and its info as a JSON text.
#[derive(Debug, PartialEq, Eq, Drop)]
pub struct Member {
    pub user_id: Text,
    pub info: Text,
}

impl Member {
    /// A member with the same id and info.
    pub fn copy(&self, alloc: Global) -> Result<Member, Memory>
        ensures { IfOk result (λ m. m ≡ self.now) }
    {
        Ok(Member {
            user_id: self.user_id.copy(alloc)?,
            info: self.info.copy(alloc)?,
        })
    }
}

/// A call on a channel shard. `at` is the moment of the call in milliseconds.
#[derive(Debug, PartialEq, Eq, Drop)]
pub enum ChanCall {
    /// The socket subscribes to the channel, on a presence channel as this member.
    Join {
        socket: u64,
        channel: Text,
        member: Option<Member>,
        at: u64,
    },
    /// The socket ends its subscription to the channel.
    Leave {
        socket: u64,
        channel: Text,
        at: u64,
    },
    /// The socket is gone, and all its subscriptions end.
    Lost {
        socket: u64,
        at: u64,
    },
    /// A back end publishes an event; `body` is a JSON string. The excepted socket doesn't get it.
    Publish {
        channel: Text,
        event: Text,
        body: Text,
        except: Option<u64>,
        at: u64,
    },
    /// The socket sends a client event to the others; `body` is a JSON text.
    Say {
        socket: u64,
        channel: Text,
        event: Text,
        body: Text,
        at: u64,
    },
    /// The caller takes its frames.
    Take,
    /// The caller takes the webhook events.
    TakeHooks {
        at: u64,
    },
    /// Which channels with this prefix have a subscription.
    Names {
        prefix: Text,
    },
    /// How many subscriptions and users the channel has, and its latest event.
    Look {
        channel: Text,
        at: u64,
    },
    /// The ids of the users of a presence channel.
    Users {
        channel: Text,
    },
}

/// What a channel shard answers.
#[derive(Debug, Drop)]
pub enum ChanAnswer {
    Joined,
    /// The socket is subscribed to the channel already.
    Already,
    /// The presence channel is full.
    Crowded,
    Left,
    /// The socket isn't subscribed to the channel.
    NotOn,
    /// So many subscriptions ended.
    Gone {
        count: u64,
    },
    /// The channel has so many subscriptions, and on a presence channel so many users.
    Sent {
        subs: u64,
        users: u64,
    },
    Said,
    Frames(FrameList),
    Hooks(HookList),
    Rows(NameRows),
    /// The channel has so many subscriptions, and on a presence channel so many users; on a cache
    /// channel its latest event, while that is kept.
    Looked {
        subs: u64,
        users: u64,
        cache: Option<CacheRow>,
    },
    Ids(TextList),
}

/// A channel with the numbers of its subscriptions and users.
#[derive(Debug, PartialEq, Eq, Drop)]
pub struct NameRow {
    pub channel: Text,
    pub subs: u64,
    pub users: u64,
}

/// The latest event of a cache channel: its body, a JSON string, and for how many more seconds it is
/// kept, rounded up.
#[derive(Debug, PartialEq, Eq, Drop)]
pub struct CacheRow {
    pub body: Text,
    pub ttl: u64,
}

use crate::reply::Reply;
use ch_base::{Items, Text};
use ch_protocol::AskList;

/// Which counts of a channel a reply tells.
#[derive(Clone, Copy, Debug, PartialEq, Eq)]
pub struct Wanted {
    /// `user_count`
    pub users: bool,
    /// `subscription_count`
    pub subs: bool,
}

/// A channel, and which of its counts a reply tells.
#[derive(Debug, Drop)]
pub struct Counted {
    pub channel: Text,
    pub wanted: Wanted,
}

/// A list of channels with the counts that are told of each.
pub type CountedList = Items<Counted>;

/// What a reply to a request tells.
#[derive(Debug, Drop)]
pub enum ReplyForm {
    /// Nothing.
    Empty,
    /// The counts of each channel of a trigger, by its name.
    Triggered(CountedList),
    /// The counts of the channel of each trigger of a batch.
    Batch(CountedList),
    /// The channels with a subscription.
    Channels(Wanted),
    /// Whether a channel has a subscription, its counts, and its latest event where that was asked for.
    Channel { counts: Wanted, cache: bool },
    /// The users of a presence channel.
    Users,
}

/// The calls that a request asks for, and what its reply tells then.
#[derive(Debug, Drop)]
pub struct Plan {
    pub asks: AskList,
    pub form: ReplyForm,
}

/// What is done with a request.
#[derive(Debug, Drop)]
pub enum Planned {
    /// It is refused.
    Answer(Reply),
    /// Its calls are made.
    Ask(Plan),
}

use ch_base::{Items, Text, TextList};

/// An event that a back end triggers (Pusher Channels documentation, HTTP API, "POST event").
#[derive(Debug, Drop)]
pub struct Trigger {
    /// The event's name, 1 to `MAX_NAME` bytes.
    pub event: Text,
    /// The event's data as they are spelled: a JSON string.
    pub body: Text,
    /// How many bytes the data have, unescaped.
    pub size: u64,
    /// 1 to `MOST_CHANNELS` channels, none of them twice.
    pub channels: TextList,
    /// The id of a socket that doesn't get the event.
    pub socket_id: Option<Text>,
    /// What the reply tells of each channel: words, parted by commas.
    pub info: Option<Text>,
}

/// A list of triggers, in order.
pub type TriggerList = Items<Trigger>;

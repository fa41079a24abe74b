use crate::text::Text;

/// A webhook event (Pusher Channels documentation, webhooks).
#[derive(Debug, PartialEq, Eq, Drop)]
pub enum Hook {
    /// `channel_occupied`.
    Occupied {
        channel: Text,
    },
    /// `channel_vacated`.
    Vacated {
        channel: Text,
    },
    /// `member_added`.
    Added {
        channel: Text,
        user_id: Text,
    },
    /// `member_removed`.
    Removed {
        channel: Text,
        user_id: Text,
    },
    /// `client_event`; `body` is a JSON text.
    Client {
        channel: Text,
        event: Text,
        body: Text,
        socket: u64,
        user_id: Option<Text>,
    },
    /// `cache_miss`.
    Miss {
        channel: Text,
    },
}

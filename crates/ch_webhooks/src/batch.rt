use ch_base::{Bytes, Text};

/// Who sends the webhooks of an app: the app's key and secret, and the second of the server's start.
#[derive(Debug, PartialEq, Eq, Drop)]
pub struct Sender {
    pub key: Text,
    pub secret: Text,
    pub start: u64,
}

/// A batch of webhook events, as it is posted at each try.
#[derive(Debug, PartialEq, Eq, Drop)]
pub struct Batch {
    /// Batches are numbered from 1.
    pub number: u64,
    /// When it was cut, in milliseconds.
    pub moment: u64,
    /// A JSON text (Pusher Channels documentation, Webhooks, "Webhook format").
    pub body: Bytes,
    /// The body's HMAC-SHA256 by the app's secret, in lower-case hex (Webhooks, "Security").
    pub signature: [u8; 64],
}

/// A batch that waits to be posted: how often it was tried, and the moment from which it may be tried again.
#[derive(Debug, PartialEq, Eq, Drop)]
pub struct Waiting {
    pub batch: Batch,
    pub tries: u64,
    pub due: u64,
}

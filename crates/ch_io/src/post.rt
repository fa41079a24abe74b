ghost use Rattle.std.specs.Prelude.{◌≡◌, ◌≤◌, Some};
ghost use Rattle.ch_io.specs.Counts.{Rose};
ghost use Rattle.ch_io.specs.Posts.{HandsOver};

use ch_base::{Bytes, Text};

/// What a post answers.
#[derive(Clone, Copy, Debug, PartialEq, Eq)]
pub enum Posted {
    /// The receiver answered with this status (RFC 9110, section 15).
    Status(u16),
    /// The post failed, and the count of faults rose. It may have been received.
    Failed,
}

/// What one post is handed: the body, the app's key and the body's signature.
#[derive(Debug, PartialEq, Eq, Drop)]
pub struct Handed {
    pub body: Bytes,
    pub key: Text,
    pub signature: [u8; 64],
}

/// Where webhook bodies are posted to.
pub trait Post {
    ghost use Rattle.ch_io.specs.Posts.{PostTold};

    /// What it tells of itself: what its posts were handed, where that is known, the answer of its last
    /// post, and its count of faults. The count stands still at its type's end.
    ghost told: { Self → PostTold };

    /// Posts a body, with the app's key and the body's signature (Pusher Channels documentation,
    /// Webhooks, "Authentication").
    fn post(&mut self, body: &Bytes, key: &Text, signature: &[u8; 64]) -> Posted
        ensures handed { HandsOver result (record { body = body.now; key = key.now; signature = signature.now }) (told self.old).handed (told self.new).handed }
        ensures last { (told self.new).last ≡ Some result }
        ensures later { (told self.old).faults ≤ (told self.new).faults }
        ensures failed { result ≡ Posted.Failed → Rose (told self.old).faults (told self.new).faults };
}

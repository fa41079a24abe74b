ghost use Rattle.std.specs.Prelude.{◌≡◌, ◌≤◌, drop, length};
ghost use Rattle.ch_exchange.specs.Hearing.{IsOr};
ghost use Rattle.ch_exchange.specs.Pending.{out_of_memory};

use crate::reply_bytes::ReplyBytes;
use ch_base::{Bytes, Memory, Text};
use std::marker::Model;

/// What follows the last byte of a reply.
#[derive(Debug, Drop)]
pub enum After {
    /// The connection is closed.
    Close,
    /// It becomes a WebSocket, of this target; the rest are the bytes that were read behind the head.
    Upgrade { target: Text, rest: Bytes },
}

/// A reply that is written piece by piece.
///
/// Contracts see the bytes that aren't written yet, and what follows them.
#[derive(Debug, Drop)]
pub struct PendingReply {
    bytes: ReplyBytes,
    written: usize,
    after: After,
}

impl Model for PendingReply {
    ghost use Rattle.std.specs.Prelude.{◌≤◌, drop, length};
    ghost use Rattle.ch_exchange.specs.Pending.{Pending, whole};

    ghost Value = { Pending };

    ghost view = { λ p. record { left = drop p.written (whole p.bytes); after = p.after } };

    ghost invariant = { λ p. p.written ≤ length (whole p.bytes) };
}

impl PendingReply {
    /// A reply of which nothing is written yet.
    pub(crate) fn new(bytes: Bytes, after: After) -> PendingReply
        ensures { result ≡ record { left = bytes; after = after } }
    {
        PendingReply {
            bytes: ReplyBytes::Made(bytes),
            written: 0,
            after,
        }
    }

    /// The reply for want of memory. It takes none.
    pub(crate) fn out_of_memory() -> PendingReply
        ensures { result ≡ out_of_memory }
    {
        PendingReply {
            bytes: ReplyBytes::OutOfMemory,
            written: 0,
            after: After::Close,
        }
    }

    /// The reply, or the one for want of memory.
    pub(crate) fn or_out_of_memory(made: Result<PendingReply, Memory>) -> PendingReply
        ensures { IsOr made result }
    {
        match made {
            Ok(reply) => reply,
            Err(_memory) => PendingReply::out_of_memory(),
        }
    }

    /// The bytes that aren't written yet.
    pub fn left(&self) -> &[u8]
        ensures { result.now ≡ self.now.left }
    {
        &self.bytes.as_slice()[self.written..]
    }

    /// So many of them are written.
    pub(crate) fn wrote(&mut self, count: usize)
        requires { count ≤ length self.old.left }
        ensures { self.new ≡ record { left = drop count self.old.left; after = self.old.after } }
    {
        prove!(count <= self.bytes.as_slice().len() - self.written);
        self.written += count;
    }

    /// What follows the last byte.
    pub(crate) fn into_after(self) -> After
        ensures { result ≡ self.after }
    {
        self.after
    }
}

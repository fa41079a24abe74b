//! The replies to what bytes are, with no call at a desk.
ghost use Rattle.std.specs.Prelude.{◌≡◌, ◌≤◌, IfOk, drop, length};
ghost use Rattle.ch_requests.specs.Handshakes.{shaken};
ghost use Rattle.ch_requests.specs.Replies.{refusal};
ghost use Rattle.ch_exchange.specs.Answers.{shake_reply};
ghost use Rattle.ch_exchange.specs.Pending.{closing};

use crate::pending::{After, PendingReply};
use ch_api::{Reply, refusal, reply_bytes};
use ch_base::{Bytes, Memory};
use ch_http::{Head, RequestReader};
use ch_shake::{Shake, shake};
use std::alloc::Global;

/// A reply after which the connection is closed.
pub(crate) fn closing(alloc: Global, reply: &Reply) -> Result<PendingReply, Memory>
    ensures { IfOk result (λ p. p ≡ closing reply.now) }
{
    let bytes = reply_bytes(alloc, reply)?;
    Ok(PendingReply::new(bytes, After::Close))
}

/// The reply that refuses a request with this status.
pub(crate) fn refused(alloc: Global, status: u16) -> Result<PendingReply, Memory>
    ensures { IfOk result (λ p. p ≡ closing (refusal status)) }
{
    let reply = refusal(alloc, status)?;
    closing(alloc, &reply)
}

/// The reply to a handshake, by its head and all bytes that came.
pub(crate) fn shaken(
    alloc: Global,
    reader: &RequestReader,
    head: &Head,
) -> Result<PendingReply, Memory>
    requires { head.now.used ≤ length reader.now.bytes }
    ensures { IfOk result (λ p. p ≡ shake_reply (drop head.now.used reader.now.bytes) (shaken head.now)) }
{
    let rest = reader.rest(alloc, head.used)?;
    let shake = shake(alloc, head)?;
    Ok(shake_reply(rest, shake))
}

fn shake_reply(rest: Bytes, shake: Shake) -> PendingReply
    ensures { result ≡ shake_reply rest shake }
{
    match shake {
        Shake::Upgrade { reply, target } => {
            PendingReply::new(reply, After::Upgrade { target, rest })
        }
        Shake::Refuse { reply } => PendingReply::new(reply, After::Close),
    }
}

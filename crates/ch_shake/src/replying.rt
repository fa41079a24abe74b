ghost use Rattle.std.specs.Prelude.{◌≡◌, ◌++◌, IfOk, length, string_bytes};
ghost use Rattle.ch_requests.specs.Handshakes.{shaken, shake_refusal, switching, version_head};

use crate::accepting::accept_value;
use crate::fault::HandshakeFault;
use crate::judging::handshake_key;
use ch_api::{refusal, reply_bytes};
use ch_base::{Bytes, Memory};
use ch_requests::{Head, Shake};
use std::alloc::Global;

/// What a handshake with this head is answered (RFC 6455, section 4.2.2). A connection whose handshake is refused is
/// closed.
pub fn shake(alloc: Global, head: &Head) -> Result<Shake, Memory>
    ensures { IfOk result (λ s. s ≡ shaken head.now) }
{
    match handshake_key(alloc, head) {
        Ok(key) => Ok(Shake::Upgrade {
            reply: switching(alloc, key)?,
            target: head.target.copy(alloc)?,
        }),
        Err(HandshakeFault::Status(status)) => Ok(Shake::Refuse {
            reply: shake_refusal(alloc, status)?,
        }),
        Err(HandshakeFault::Memory) => Err(Memory),
    }
}

/// The reply after which the connection is a WebSocket.
fn switching(alloc: Global, key: &[u8]) -> Result<Bytes, Memory>
    ensures { IfOk result (λ bytes. bytes ≡ switching key.now) }
{
    let value = accept_value(alloc, key)?;
    let value = value.as_str();
    let head = format!(in alloc;
        "HTTP/1.1 101 Switching Protocols\r\nUpgrade: websocket\r\nConnection: Upgrade\r\nSec-WebSocket-Accept: {value}\r\n\r\n"
    )?;
    Ok(Bytes::from_vec(head.into_bytes()))
}

/// The reply that refuses a handshake with this status.
fn shake_refusal(alloc: Global, status: u16) -> Result<Bytes, Memory>
    ensures { IfOk result (λ bytes. bytes ≡ shake_refusal status) }
{
    let reply = refusal(alloc, status)?;
    if status == 426 {
        version_told(alloc, &reply.body)
    } else {
        reply_bytes(alloc, &reply)
    }
}

/// The reply with this body that tells which version of the protocol is spoken (RFC 6455, section 4.4).
fn version_told(alloc: Global, body: &Bytes) -> Result<Bytes, Memory>
    ensures { IfOk result (λ bytes. bytes ≡ version_head (length body.now) ++ body.now) }
{
    let mut bytes = version_head(alloc, body.len())?.into_bytes();
    bytes.extend_from_slice(body.as_slice())?;
    Ok(Bytes::from_vec(bytes))
}

/// What stands before a body of so many bytes.
fn version_head(alloc: Global, count: usize) -> Result<String, Memory>
    ensures { IfOk result (λ head. string_bytes head ≡ version_head count) }
{
    let head = format!(in alloc;
        "HTTP/1.1 426 Upgrade Required\r\nContent-Type: application/json\r\nContent-Length: {count}\r\nSec-WebSocket-Version: 13\r\nConnection: close\r\n\r\n"
    )?;
    Ok(head)
}

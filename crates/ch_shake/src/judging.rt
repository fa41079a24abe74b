ghost use Rattle.std.specs.Prelude.{◌≡◌, IfOk, IfErr, Ok};
ghost use Rattle.std.specs.Option.{option_copied};
ghost use Rattle.ch_requests.specs.Handshakes.{handshake_key, asks_upgrade, is_key, is_13};
ghost use Rattle.ch_shake.specs.Faults.{IsFaultOf};

use crate::fault::HandshakeFault;
use crate::value::only_value;
use base64::DecodeAllocError;
use base64::engine::general_purpose::STANDARD;
use ch_base::Memory;
use ch_http::field_lists;
use ch_requests::Head;
use std::alloc::Global;

/// The key of a handshake with this head, as it was sent, where it is accepted (RFC 6455, section 4.2.1). A head without
/// one good key is refused with 400, whatever its version of the protocol is.
pub fn handshake_key(alloc: Global, head: &Head) -> Result<&[u8], HandshakeFault>
    ensures accepted { IfOk result (λ key. handshake_key head.now ≡ Ok key.now) }
    ensures refused { IfErr result (IsFaultOf (handshake_key head.now)) }
{
    if !asks_upgrade(head) {
        return Err(HandshakeFault::Status(400));
    }
    let fields = head.fields.as_slice();
    let Some(key) = only_value(fields, "sec-websocket-key") else {
        return Err(HandshakeFault::Status(400));
    };
    if !is_key(alloc, key)? {
        return Err(HandshakeFault::Status(400));
    }
    if !is_13(only_value(fields, "sec-websocket-version")) {
        return Err(HandshakeFault::Status(426));
    }
    Ok(key)
}

/// Whether the connection is of HTTP/1.1 and is to be upgraded (RFC 9110, section 7.8).
fn asks_upgrade(head: &Head) -> bool
    ensures { result ≡ asks_upgrade head.now }
{
    head.minor == 1 && field_lists(head.fields.as_slice(), "connection", b"upgrade")
}

/// Whether the key is the base64 of 16 bytes.
fn is_key(alloc: Global, key: &[u8]) -> Result<bool, Memory>
    ensures { IfOk result (λ yes. yes ≡ is_key key.now) }
{
    match STANDARD.decode(alloc, key) {
        Ok(bytes) => Ok(bytes.len() == 16),
        Err(DecodeAllocError::DecodeError(_)) => Ok(false),
        Err(DecodeAllocError::OutOfMemory) => Err(Memory),
    }
}

/// Whether the version of the protocol is that of RFC 6455.
fn is_13(version: Option<&[u8]>) -> bool
    ensures { result ≡ is_13 (option_copied version.entry) }
{
    match version {
        Some(version) => version == b"13".as_slice(),
        None => false,
    }
}

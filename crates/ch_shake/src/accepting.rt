ghost use Rattle.std.specs.Prelude.{◌≡◌, IfOk, string_bytes};
ghost use Rattle.ch_requests.specs.Handshakes.{accept_value};

use base64::engine::general_purpose::STANDARD;
use ch_base::Memory;
use sha1::Sha1;
use std::alloc::Global;

/// What follows the key in the text whose digest is told (RFC 6455, section 1.3).
const GUID: &[u8] = b"258EAFA5-E914-47DA-95CA-C5AB0DC85B11";

/// The value that shows a client that its key was read: the base64 of the SHA-1 of the key, as it was sent, and the GUID
/// (RFC 6455, section 4.2.2).
pub fn accept_value(alloc: Global, key: &[u8]) -> Result<String, Memory>
    ensures { IfOk result (λ value. string_bytes value ≡ accept_value key.now) }
{
    let mut hasher = Sha1::new();
    hasher.update(key);
    hasher.update(GUID);
    let digest = hasher.finalize();
    let value = STANDARD.encode(alloc, &digest)?;
    Ok(value)
}

ghost use Rattle.std.specs.Prelude.{◌≡◌};
ghost use Rattle.md5.specs.Md5.{md5};
ghost use Rattle.hex.specs.Hex.{encode_lower};

use md5::{Digest, Md5};

/// The lower-case hex of the MD5 (RFC 1321) of a request's body, which the HTTP API calls `body_md5`.
pub fn md5_hex(body: &[u8]) -> [u8; 32]
    ensures { result ≡ encode_lower (md5 body.now) }
{
    let mut text = [0u8; 32];
    let _fits = hex::encode_to_slice(Md5::digest(body), &mut text);
    text
}

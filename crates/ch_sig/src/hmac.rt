ghost use Rattle.std.specs.Prelude.{◌≡◌, ◌++◌, [], ℕ, List};
ghost use Rattle.ch_sig.specs.Hmac as spec;

use sha2::{Digest, Sha256};

/// The length of a block of SHA-256 in bytes.
pub const BLOCK: usize = 64;

/// The byte that fills the inner pad (RFC 2104, section 2).
pub const INNER_PAD: u8 = 0x36;

/// The byte that fills the outer pad.
pub const OUTER_PAD: u8 = 0x5c;

/// An HMAC-SHA256 (RFC 2104) under one secret, of a message that is fed in pieces.
#[derive(Drop)]
pub struct Mac {
    inner: Sha256,
    outer: Sha256,
}

impl Mac {
    ghost use Rattle.ch_sig.specs.MacState.{MacHolds};

    /// Begins with the empty message. The secret may have any length.
    pub fn new(secret: &[u8]) -> Mac
        ensures { MacHolds result secret.now [] }
    {
        let key = key_block(secret);
        let mut inner = Sha256::new();
        inner.update(padded(&key, INNER_PAD));
        let mut outer = Sha256::new();
        outer.update(padded(&key, OUTER_PAD));
        Mac { inner, outer }
    }

    /// Adds bytes at the message's end.
    pub fn add(&mut self, bytes: &[u8])
        ensures { (secret message : List ℕ) → MacHolds self.old secret message → MacHolds self.new secret (message ++ bytes.now) }
    {
        self.inner.update(bytes);
    }

    /// The lower-case hex of the message's HMAC.
    pub fn finish(self) -> [u8; 64]
        ensures { (secret message : List ℕ) → MacHolds self secret message → result ≡ spec.hmac_hex secret message }
    {
        let Mac { inner, mut outer } = self;
        outer.update(inner.finalize());
        let code = outer.finalize();
        let mut text = [0u8; 64];
        let _fits = hex::encode_to_slice(code, &mut text);
        text
    }
}

/// The secret as a whole block: one that is longer stands as its digest, and zero bytes follow.
fn key_block(secret: &[u8]) -> [u8; BLOCK]
    ensures { result ≡ spec.key_block secret.now }
{
    let mut block = [0u8; BLOCK];
    if secret.len() > BLOCK {
        let digest = Sha256::digest(secret);
        block[..digest.len()].copy_from_slice(&digest);
    } else {
        block[..secret.len()].copy_from_slice(secret);
    }
    block
}

/// The block with each byte xored by the pad's.
fn padded(block: &[u8; BLOCK], pad: u8) -> [u8; BLOCK]
    ensures { result ≡ spec.padded pad block.now }
{
    let mut out = [0u8; BLOCK];
    'bytes: for (i, byte) in block.iter().enumerate() {
        out[i] = *byte ^ pad;
    }
    out
}

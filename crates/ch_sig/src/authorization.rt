ghost use Rattle.std.specs.Prelude.{◌≡◌, ◌↔◌, IsTrue, length};
ghost use Rattle.ch_sig.specs.SignedText.{authorization_text};

/// The length of a signature in bytes.
const SIGNATURE: usize = 64;

/// Whether the given authorization is the key, a colon and the signature, as in the `auth` of a
/// subscription (Pusher Channels, "Auth signatures").
///
/// All bytes are looked at wherever they first differ; that the time doesn't depend on them isn't
/// proved.
pub fn matches(given: &str, key: &str, sig: &[u8; 64]) -> bool
    ensures { IsTrue result ↔ (given.now ≡ authorization_text key.now sig.now) }
{
    let given = given.as_bytes();
    let key = key.as_bytes();
    if given.len() <= SIGNATURE || given.len() - SIGNATURE - 1 != key.len() {
        return false;
    }
    let (given_key, rest) = given.split_at(key.len());
    let (colon, given_sig) = rest.split_at(1);
    let differing = difference(given_key, key)
        | difference(colon, b":")
        | difference(given_sig, sig);
    differing == 0
}

/// 0 where two texts of one length are equal, and else some bits in which they differ.
fn difference(left: &[u8], right: &[u8]) -> u8
    requires { length left.now ≡ length right.now }
    ensures { (result ≡ 0) ↔ (left.now ≡ right.now) }
{
    let mut bits = 0;
    'bytes: for (i, byte) in left.iter().enumerate() {
        bits |= *byte ^ right[i];
    }
    bits
}

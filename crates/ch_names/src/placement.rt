ghost use Rattle.std.specs.Prelude.{◌≡◌, ◌≤◌, ◌<◌};
ghost use Rattle.ch_history.specs.Placement.{shard_of};

use ch_history::{FNV_OFFSET, FNV_PRIME};

/// The shard, of so many, on which a channel or a user has its place: the FNV-1a hash of its name
/// modulo their number, which is 1 to 64.
pub fn shard_of(name: &str, shards: u64) -> u64
    requires { 1 ≤ shards }
    ensures place { result ≡ shard_of name.now shards }
    ensures below { result < shards }
{
    let mut hash = FNV_OFFSET;
    'bytes: for byte in name.as_bytes() {
        hash = (hash ^ u64::from(*byte)).wrapping_mul(FNV_PRIME);
    }
    hash % shards
}

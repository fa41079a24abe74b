ghost use Rattle.std.specs.Prelude.{◌≡◌};
ghost use Rattle.ch_exchange.specs.Pending.{whole};

use ch_api::{REPLY_503, whole_refusal_holds};
use ch_base::Bytes;

/// The bytes of a reply. Those for want of memory take none.
#[derive(Debug, Drop)]
pub(crate) enum ReplyBytes {
    Made(Bytes),
    OutOfMemory,
}

impl ReplyBytes {
    /// All of them.
    pub(crate) fn as_slice(&self) -> &[u8]
        ensures { result.now ≡ whole self.now }
    {
        match self {
            ReplyBytes::Made(bytes) => bytes.as_slice(),
            ReplyBytes::OutOfMemory => {
                whole_refusal_holds();
                REPLY_503
            }
        }
    }
}

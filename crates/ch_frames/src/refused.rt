//! Why a text is refused.
use ch_base::Memory;

/// Why a client's text is refused.
#[derive(Clone, Copy, Debug, PartialEq, Eq)]
pub enum Refused {
    /// The code of its first fault: `MALFORMED_MESSAGE`, `UNKNOWN_EVENT`, `INVALID_CHANNEL_NAME` or
    /// `MESSAGE_TOO_LONG` of `ch_base`.
    Code(u16),
    /// Want of memory.
    Memory,
}

impl From<Memory> for Refused {
    ghost use Rattle.std.specs.Prelude.{◌≡◌};
    ghost use Rattle.ch_frames.specs.declared.refused.Refused.TheVariants.{Memory};

    ghost from_gives = { λ _ e. e ≡ Memory };

    fn from(_: Memory) -> Refused {
        Refused::Memory
    }
}

/// Why the data of a member or of a user aren't read.
#[derive(Clone, Copy, Debug, PartialEq, Eq)]
pub enum Unread {
    /// They are nobody's.
    Bad,
    /// Want of memory.
    Memory,
}

impl From<Memory> for Unread {
    ghost use Rattle.std.specs.Prelude.{◌≡◌};
    ghost use Rattle.ch_frames.specs.declared.refused.Unread.TheVariants.{Memory};

    ghost from_gives = { λ _ e. e ≡ Memory };

    fn from(_: Memory) -> Unread {
        Unread::Memory
    }
}

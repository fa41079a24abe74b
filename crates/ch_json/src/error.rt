//! Why a text is not read.

use std::alloc::{AllocError, AllocFailed};
use std::fmt;

/// Why a text is not read.
#[derive(Clone, Copy, Debug, PartialEq, Eq)]
pub enum JsonError {
    /// The text is no JSON text. The number is the length in bytes of its longest prefix that
    /// begins a JSON text.
    Syntax(u64),
    /// The bracket at this byte would be the 65th that is open.
    Deep(u64),
    /// Want of memory.
    Memory,
}

impl fmt::Display for JsonError {
    fn fmt<W: fmt::Write>(&self, f: &mut fmt::Formatter<W>) -> fmt::Result {
        match self {
            JsonError::Syntax(at) => write!(f, "no JSON at byte {at}"),
            JsonError::Deep(at) => write!(f, "too many open brackets at byte {at}"),
            JsonError::Memory => f.write_str("out of memory"),
        }
    }
}

impl From<AllocError> for JsonError {
    ghost use Rattle.std.specs.Prelude.{◌≡◌};
    ghost use Rattle.ch_json.specs.declared.error.JsonError.TheVariants.{Memory};

    ghost from_gives = { λ _ e. e ≡ Memory };

    fn from(_: AllocError) -> JsonError {
        JsonError::Memory
    }
}

impl<T: Drop> From<AllocFailed<T>> for JsonError {
    ghost use Rattle.std.specs.Prelude.{◌≡◌};
    ghost use Rattle.ch_json.specs.declared.error.JsonError.TheVariants.{Memory};

    ghost from_gives = { λ _ e. e ≡ Memory };

    fn from(_: AllocFailed<T>) -> JsonError {
        JsonError::Memory
    }
}

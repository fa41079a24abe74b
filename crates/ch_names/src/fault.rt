ghost use Rattle.std.specs.Prelude.{◌≡◌};
ghost use Rattle.std.specs.Result.{result_err};
ghost use Rattle.ch_names.specs.Faults.{length_fault};

/// Why a text isn't a good name. Where several hold, the first is told.
#[derive(Clone, Copy, Debug, PartialEq, Eq)]
pub enum NameFault {
    /// It has no byte.
    Empty,
    /// It has more bytes than are allowed: so many.
    Long(u64),
    /// The byte at this place is the first outside the alphabet of channel names.
    Byte(u64),
}

/// Whether the text has 1 to `limit` bytes.
pub(crate) fn check_length(text: &str, limit: u64) -> Result<(), NameFault>
    ensures { result_err result ≡ length_fault limit text.now }
{
    let len = text.len() as u64;
    if len == 0 {
        Err(NameFault::Empty)
    } else if len > limit {
        Err(NameFault::Long(len))
    } else {
        Ok(())
    }
}

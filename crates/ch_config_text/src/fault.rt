use crate::field::Field;
use ch_base::Memory;

/// Why a text gives no configuration.
#[derive(Clone, Copy, Debug, PartialEq, Eq)]
pub enum ConfigFault {
    /// The bytes are no text, or the text is no JSON object (RFC 8259).
    NotJson,
    /// The field has to be there, and isn't.
    Missing(Field),
    /// The field has a value that it may not have.
    Bad(Field),
    /// There is no memory.
    Memory,
}

impl From<Memory> for ConfigFault {
    ghost use Rattle.std.specs.Prelude.{◌≡◌};
    ghost use Rattle.ch_config_text.specs.declared.fault.ConfigFault.TheVariants as fault;

    ghost from_gives = { λ memory result. result ≡ fault.Memory };

    fn from(_: Memory) -> ConfigFault {
        ConfigFault::Memory
    }
}

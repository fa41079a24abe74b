use ch_base::Memory;

/// Why a connection isn't opened.
#[derive(Clone, Copy, Debug, PartialEq, Eq)]
pub enum StartFault {
    /// The target is refused with this code: `UNKNOWN_PATH`, `UNKNOWN_APP`, `NO_VERSION`, `INVALID_VERSION`
    /// or `UNSUPPORTED_VERSION` of `ch_base`.
    Code(u16),
    /// There is no memory.
    Memory,
}

impl From<Memory> for StartFault {
    ghost use Rattle.std.specs.Prelude.{◌≡◌};
    ghost use Rattle.ch_session.specs.declared.start_fault.StartFault.TheVariants as fault;

    ghost from_gives = { λ memory result. result ≡ fault.Memory };

    fn from(_: Memory) -> StartFault {
        StartFault::Memory
    }
}

use ch_base::Memory;

/// Why a handshake isn't accepted.
#[derive(Clone, Copy, Debug, PartialEq, Eq)]
pub enum HandshakeFault {
    /// It is refused with this status: 400, or 426 where only the version of the protocol isn't spoken (RFC 6455,
    /// section 4.2.2).
    Status(u16),
    /// There is no memory.
    Memory,
}

impl From<Memory> for HandshakeFault {
    ghost use Rattle.std.specs.Prelude.{◌≡◌};
    ghost use Rattle.ch_shake.specs.declared.fault.HandshakeFault.{HandshakeFault};

    ghost from_gives = { λ _ r. r ≡ HandshakeFault.Memory };

    fn from(_: Memory) -> HandshakeFault {
        HandshakeFault::Memory
    }
}

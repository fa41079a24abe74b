use ch_base::Memory;

/// Why a line is not played.
#[derive(Clone, Copy, Debug, PartialEq, Eq)]
pub enum LineFault {
    /// It is no transcript line here.
    NotALine,
    Memory,
}

impl From<Memory> for LineFault {
    ghost use Rattle.std.specs.Prelude.{◌≡◌};
    ghost use Rattle.ch_player.specs.declared.line_fault.LineFault.{LineFault};

    ghost from_gives = { λ _ r. r ≡ LineFault.Memory };

    fn from(_: Memory) -> LineFault {
        LineFault::Memory
    }
}

//! Where a part of a text stands.
ghost use Rattle.std.specs.Prelude.{◌≡◌};

/// A part of a text: its bytes from `from` on, up to `to`, which is the first byte behind it.
#[derive(Clone, Copy, Debug, PartialEq, Eq)]
pub struct Span {
    pub from: u64,
    pub to: u64,
}

impl Span {
    ghost use Rattle.ch_base.specs.JsonParts.{part, IsPart};
    ghost use Rattle.ch_json.specs.Entries.{span_of};

    /// The bytes of the span, as they are spelled. The span is a value's or a name's of `text`.
    pub fn part(self, text: &str) -> &str
        requires { IsPart text.now (span_of self) }
        ensures { result.now ≡ part text.now (span_of self) }
    {
        &text[self.from as usize..self.to as usize]
    }
}

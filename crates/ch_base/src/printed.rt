ghost use Rattle.std.specs.Prelude.{◌≡◌, ℕ, false};
ghost use Rattle.ch_base.specs.Printed.{printed, is_opened};

use crate::frame::Frame;
use crate::text::Text;
use std::marker::Model;

/// A frame with its text, as it stands on the wire, which is printed once for all sockets that get it.
///
/// It is never an `Opened`: the text of that depends on the second of the server's start.
#[derive(Debug, Drop)]
pub struct Printed {
    frame: Frame,
    text: Text,
}

impl Model for Printed {
    ghost use Rattle.ch_base.specs.Printed.{IsPrinted};
    ghost use Rattle.ch_base.specs.declared.frame.Frame.{Frame};

    ghost Value = { Frame };

    ghost view = { λ p. p.frame };

    ghost invariant = { λ p. IsPrinted p.frame p.text };
}

impl Printed {
    /// A frame with its text.
    pub fn of(frame: Frame, text: Text) -> Printed
        requires timeless { is_opened frame ≡ false }
        requires text { text ≡ printed frame 1 }
        ensures { result ≡ frame }
    {
        Printed { frame, text }
    }

    pub fn frame(&self) -> &Frame
        ensures { result.now ≡ self.now }
    {
        &self.frame
    }

    /// The frame's text, which is the same whenever the server started.
    pub fn text(&self) -> &Text
        ensures { (start : ℕ) → result.now ≡ printed self.now start }
    {
        &self.text
    }
}

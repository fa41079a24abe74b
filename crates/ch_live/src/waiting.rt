ghost use Rattle.std.specs.Prelude.{◌≡◌, ◌↔◌, ℕ, IsTrue, IfSome};
ghost use Rattle.std.specs.Arc.{arc_value};
ghost use Rattle.ch_base.specs.Printed.{printed};
ghost use Rattle.ch_base.specs.declared.frame.Frame.TheVariants.{Kill};

use ch_base::{Frame, Printed, Text};
use std::marker::Model;
use std::sync::Arc;

/// A frame that waits for its socket: the socket's alone, or one that others get too, which is printed.
/// Contracts see the frame.
#[derive(Drop)]
pub struct Waiting {
    form: Form,
}

#[derive(Drop)]
enum Form {
    Alone(Frame),
    Shared(Arc<Printed>),
}

impl Model for Waiting {
    ghost use Rattle.ch_base.specs.declared.frame.Frame.{Frame};

    ghost Value = { Frame };

    ghost use Rattle.ch_live.specs.Waitings.{frame_in};

    ghost view = { λ w. frame_in w.form };
}

impl Waiting {
    /// A frame that no other socket gets.
    pub fn alone(frame: Frame) -> Waiting
        ensures { result ≡ frame }
    {
        Waiting {
            form: Form::Alone(frame),
        }
    }

    /// A frame that others may get too.
    pub fn shared(printed: Arc<Printed>) -> Waiting
        ensures { result ≡ arc_value printed }
    {
        Waiting {
            form: Form::Shared(printed),
        }
    }

    pub fn frame(&self) -> &Frame
        ensures { result.now ≡ self.now }
    {
        match &self.form {
            Form::Alone(frame) => frame,
            Form::Shared(printed) => printed.frame(),
        }
    }

    /// The frame's text, where it is printed.
    pub fn text(&self) -> Option<&Text>
        ensures { IfSome result (λ text. (start : ℕ) → text.now ≡ printed self.now start) }
    {
        match &self.form {
            Form::Alone(_) => None,
            Form::Shared(printed) => Some(printed.text()),
        }
    }

    /// Whether it closes its connection as unauthorized.
    pub fn is_kill(&self) -> bool
        ensures { IsTrue result ↔ (self.now ≡ Kill) }
    {
        matches!(self.frame(), Frame::Kill)
    }
}

ghost use Rattle.std.specs.Prelude.{◌≡◌};
ghost use Rattle.std.specs.Arc.{arc_value};

use crate::frame::Frame;
use crate::printed::Printed;
use std::marker::Model;
use std::sync::Arc;

/// A frame for the socket with this number, which shares the frame with the other sockets that get it. Contracts see
/// the frame and the number.
#[derive(Debug, Drop)]
pub struct Shared {
    socket: u64,
    printed: Arc<Printed>,
}

impl Model for Shared {
    ghost use Rattle.std.specs.Arc.{arc_value};
    ghost use Rattle.ch_base.specs.declared.frame.FrameFor.{FrameFor};

    ghost Value = { FrameFor };

    ghost view = { λ s. record { socket = s.socket; frame = arc_value s.printed } };
}

impl Shared {
    pub fn new(socket: u64, printed: Arc<Printed>) -> Shared
        ensures { result ≡ record { socket = socket; frame = arc_value printed } }
    {
        Shared { socket, printed }
    }

    pub fn socket(&self) -> u64
        ensures { result ≡ self.now.socket }
    {
        self.socket
    }

    pub fn frame(&self) -> &Frame
        ensures { result.now ≡ self.now.frame }
    {
        self.printed.frame()
    }

    /// The frame with its text, which the others have too.
    pub fn into_printed(self) -> Arc<Printed>
        ensures { arc_value result ≡ self.frame }
    {
        let Shared { printed, .. } = self;
        printed
    }
}

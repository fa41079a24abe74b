ghost use Rattle.std.specs.Prelude.{◌≡◌, Some, None, not};
ghost use Rattle.ch_base.specs.declared.frame.Frame.TheVariants.{Error};
ghost use Rattle.ch_dispatch.specs.Outcomes.{stops, with_outcome};

use ch_base::Frame;
use ch_protocol::Settled;

/// What a socket is told of its message: it is answered by one frame at most.
#[derive(Debug, PartialEq, Eq, Drop)]
pub struct Response {
    /// The frame that the socket is sent, if there is one.
    pub reply: Option<Frame>,
    /// The code with which its connection ends, if it does (Pusher Channels protocol, "Error codes").
    pub end: Option<u16>,
}

impl Response {
    /// The socket is told nothing, and its connection goes on.
    pub(crate) fn nothing() -> Response
        ensures { result ≡ record { reply = None; end = None } }
    {
        Response {
            reply: None,
            end: None,
        }
    }

    /// The socket is sent this frame.
    pub(crate) fn reply(frame: Frame) -> Response
        ensures { result ≡ record { reply = Some frame; end = None } }
    {
        Response {
            reply: Some(frame),
            end: None,
        }
    }

    /// The message is refused with this code.
    pub(crate) fn refusal(code: u16) -> Response
        ensures { result ≡ record { reply = Some (Error code); end = None } }
    {
        Response::reply(Frame::Error { code })
    }

    /// The connection ends with this code.
    pub(crate) fn end(code: u16) -> Response
        ensures { result ≡ record { reply = None; end = Some code } }
    {
        Response {
            reply: None,
            end: Some(code),
        }
    }

    /// Adds what a settled ask means, and answers whether the next ask of the message is made.
    pub(crate) fn add(&mut self, settled: Settled) -> bool
        ensures adds { self.new ≡ with_outcome self.old settled }
        ensures goes_on { result ≡ not (stops settled) }
    {
        match settled {
            Settled::Nothing => true,
            Settled::Reply(frame) => {
                self.reply = Some(frame);
                true
            }
            Settled::Refuse(code) => {
                self.reply = Some(Frame::Error { code });
                false
            }
            Settled::End(code) => {
                self.end = Some(code);
                false
            }
        }
    }
}

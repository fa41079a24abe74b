use crate::ask::AskList;
use ch_base::Frame;

/// What a session does with a message.
#[derive(Debug, PartialEq, Eq, Drop)]
pub enum Heard {
    Nothing,
    /// The socket is sent this frame.
    Reply(Frame),
    /// The socket is sent an error with this code.
    Refuse(u16),
    /// These calls are to be made in order.
    Ask(AskList),
    /// The connection ends with this code.
    End(u16),
}

/// What a settled ask means for the socket.
#[derive(Debug, PartialEq, Eq, Drop)]
pub enum Settled {
    Nothing,
    /// The socket is sent this frame.
    Reply(Frame),
    /// The socket is sent an error with this code; what is left of the message's asks isn't made.
    Refuse(u16),
    /// The connection ends with this code.
    End(u16),
}

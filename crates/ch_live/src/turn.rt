/// What became of a frame that was delivered.
#[derive(Clone, Copy, Debug, PartialEq, Eq)]
pub enum Delivered {
    /// The frame waits, or it was a Kill, which doesn't wait.
    Kept,
    /// There was no room for the frame. The next turn ends the connection.
    Cut,
}

/// What a turn answers.
#[derive(Clone, Copy, Debug, PartialEq, Eq)]
pub enum Turn {
    /// A frame was sent, or a message was heard.
    Moved,
    /// Nothing was sent and nothing heard, since the wire asked for patience.
    Idle,
    /// There was no memory for the text of a frame, which still waits.
    Memory,
    /// The connection ended. What it owes to the shards is still to be made.
    Ended(End),
}

/// Why a connection ended.
#[derive(Clone, Copy, Debug, PartialEq, Eq)]
pub enum End {
    /// The other side is gone.
    Peer,
    /// The wire failed.
    Fault,
    /// It ends with this code (Pusher Channels protocol, "Error codes"), with which the wire was closed.
    Code { code: u16, farewell: Farewell },
    /// There was no memory to receive a message.
    Memory,
}

/// What became of the text of the error with which a connection ends.
#[derive(Clone, Copy, Debug, PartialEq, Eq)]
pub enum Farewell {
    /// The wire took it.
    Sent,
    /// The wire asked for patience or failed.
    NotSent,
    /// There was no memory for it.
    Memory,
}

use ch_base::{Bytes, Text};

/// What a handshake is answered (RFC 6455, section 4.2.2).
#[derive(Debug, Drop)]
pub enum Shake {
    /// Once these bytes are written, the connection is a WebSocket that asks for the target.
    Upgrade { reply: Bytes, target: Text },
    /// Once these bytes are written, the connection is closed.
    Refuse { reply: Bytes },
}

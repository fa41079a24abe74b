use ch_base::Bytes;

/// A reply to a request: its status (RFC 9110, section 15), and its body, which is a JSON text.
#[derive(Debug, Drop)]
pub struct Reply {
    pub status: u16,
    pub body: Bytes,
}

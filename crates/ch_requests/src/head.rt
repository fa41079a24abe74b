use ch_base::{Bytes, Items, Text};

/// A field of a head (RFC 9112, section 5): its name as sent, and its value without the blanks around it.
#[derive(Debug, Drop)]
pub struct HeadField {
    pub name: Text,
    pub value: Bytes,
}

/// The fields of a head, in order.
pub type FieldList = Items<HeadField>;

/// The head of a request (RFC 9112, sections 3 and 5).
#[derive(Debug, Drop)]
pub struct Head {
    /// The method as sent; case counts.
    pub method: Text,
    /// The target as sent.
    pub target: Text,
    /// 0 for HTTP/1.0, and 1 for HTTP/1.1.
    pub minor: u8,
    pub fields: FieldList,
    /// How many bytes the head has, with its empty line and with the empty lines before it.
    pub used: u64,
}

//! The nodes of a document.

/// A value of a document. It belongs to the document that gave it.
#[derive(Clone, Copy, Debug, PartialEq, Eq)]
pub struct Node {
    pub(crate) index: usize,
}

/// What a value is, with the count of what it holds.
#[derive(Clone, Copy, Debug, PartialEq, Eq)]
pub enum Form {
    Null,
    False,
    True,
    Number,
    Str,
    /// An array of so many values.
    List(u64),
    /// An object of so many members.
    Object(u64),
}

/// How many members of an object have a name, and the value of the only one.
#[derive(Clone, Copy, Debug, PartialEq, Eq)]
pub enum Found {
    Absent,
    One(Node),
    Many,
}

use crate::marks::Marks;

/// What a frame needs to know of a row: its socket, and the owner, the caller that hands frames to that socket.
#[derive(Clone, Copy, Debug, PartialEq, Eq)]
pub struct Holder {
    pub socket: u64,
    pub owner: u64,
}

/// The holders of the rows with a name, the oldest first.
pub type Holders<'a> = Marks<'a, Holder>;

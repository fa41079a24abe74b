/// How a socket is on a channel after it asked to join.
#[derive(Clone, Copy, Debug, PartialEq, Eq)]
pub enum JoinedAs {
    /// It wasn't on the channel before.
    Fresh,
    /// It was on the channel, and nothing changed.
    Already,
}

use crate::answer::WorkerTurn;

/// What one turn of several came to, and the place of the next one in their list.
#[derive(Clone, Copy, Debug, PartialEq, Eq)]
pub(crate) struct Next {
    pub part: WorkerTurn,
    pub place: usize,
}

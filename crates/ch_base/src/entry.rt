/// One entry of a history: who called, the call, and what it was answered.
#[derive(Debug, PartialEq, Eq, Drop)]
pub struct Entry<C, A> {
    pub caller: u64,
    pub call: C,
    pub answer: A,
}

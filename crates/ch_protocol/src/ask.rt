use ch_base::{ChanAnswer, ChanCall, Items, UserAnswer, UserCall};

/// A call that is to be made on a shard, which is counted from 0.
#[derive(Debug, PartialEq, Eq, Drop)]
pub enum Ask {
    Chan { shard: u64, call: ChanCall },
    User { shard: u64, call: UserCall },
}

/// What came of an ask: the answer of its call, or want of memory.
#[derive(Debug, Drop)]
pub enum Made {
    Chan(ChanAnswer),
    User(UserAnswer),
    Memory,
}

/// A list of asks, in the order in which they are to be made.
pub type AskList = Items<Ask>;

/// A list of what came of asks, in their order.
pub type AnswerList = Items<Made>;

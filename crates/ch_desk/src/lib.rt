//! Where a caller's calls on shards are served.
//!
//! A [`Desk`] is any such place. For each shard of channels and each of users it stands for the list of
//! entries as its caller knows it: a call lets that list grow by entries of other callers and then by the
//! call's own, the other lists stay, and every list is a legal history of its shard. What a caller did is
//! said by its own entries among those that each list gained: [`make`] and [`make_all`] make asks at any
//! desk, and by [`calls_chain`] the calls of one after another are all of them in order. A [`Bench`] is the
//! desk of a caller that is alone: there nothing lies between. What it does on shards of either kind it does
//! on any [`Shard`]. A [`Starved`] refuses some of the calls that are made at another desk, for want of
//! memory.
#![tactic(auto)]

mod bench;
mod desk;
mod laws;
mod making;
mod numbers;
mod row;
mod shard;
mod starved;

pub use bench::Bench;
pub use ch_protocol::{AnswerList, Ask, AskList, Made};
pub use desk::Desk;
pub use laws::{calls_alone, calls_chain};
pub use making::{make, make_all};
pub use numbers::NumberList;
pub use shard::Shard;
pub use starved::Starved;

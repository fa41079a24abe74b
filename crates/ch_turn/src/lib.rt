//! A lock that serves its callers in the order of their tickets, with one legal history of all calls.
//!
//! A [`TurnLock`] goes round any value that is [`ch_base::Served`]. A caller calls with its
//! [`Pass`], which keeps the list of entries that the caller has seen. Each call lets that list
//! grow by entries of other callers and then by the call's own, with the answer that the caller
//! got. At the end [`TurnLock::close`] gives the value back. It stands for one legal history, which
//! begins with the list of each pass and has of each caller just the calls of its pass.
//!
//! Nothing is promised of waiting: a call may wait for ever, and no order between callers is
//! claimed but that of the history.
#![tactic(auto)]

mod call;
mod closing;
mod limits;
mod lock;
mod opening;
mod pass;
mod pass_list;
mod steps;
mod table;
mod tally;
mod waiting;

pub use closing::Closed;
pub use limits::MOST_CALLS;
pub use lock::TurnLock;
pub use pass::Pass;
pub use pass_list::PassList;
pub use table::{OneHistory, Opening, Slot, Stage, View};
pub use tally::{Add, Tally};

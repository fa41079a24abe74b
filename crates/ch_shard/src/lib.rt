//! A channel shard: the value that one channel call after another is made on.
//!
//! A shard stands for every legal history of which its clock, open subscriptions, latest events, waiting frames
//! and pending webhook events are those that the definitions say (`specs/Stands.antt`). Each call that is answered adds its entry
//! to the history that the shard stands for, and a call that finds no memory leaves it. The shard keeps no
//! list of calls.
#![tactic(auto)]

mod brief;
mod channels;
mod clock;
mod effects;
mod greeting;
mod joining;
mod leaving;
mod looking;
mod naming;
mod news;
mod parting;
mod publishing;
mod saying;
mod seat;
mod shard;
mod tail;
mod taking;
mod telling;

pub use brief::Brief;
pub use seat::ChanSeat;
pub use shard::ChanShard;

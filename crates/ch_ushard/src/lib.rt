//! A user shard: the value that one call after another on users is made on.
//!
//! A shard stands for every legal history of which its sign-ins, watches and waiting frames are those
//! that the definitions say (`specs/Stands.antt`). Each call that is answered adds its entry to the
//! history that the shard stands for, and a call that finds no memory leaves it. The shard keeps no list
//! of calls: its plain lists are searched from end to end.
#![tactic(auto)]

mod effects;
mod parting;
mod seat;
mod sending;
mod shard;
mod signing;
mod telling;

pub use seat::UserSeat;
pub use shard::UserShard;

//! The house of shards: each shard under a lock of its own, with one history of all callers' calls.
//!
//! [`Locks`] is a row of locks, each round a value of its own; a caller's [`RowPasses`] keep what it has seen of each.
//! A [`House`] keeps a row of channel shards and a row of user shards. With its [`Passes`] a caller sits down at a
//! [`HouseDesk`], which is a `ch_desk::Desk`: each of its calls lets the list of one shard grow by entries of other
//! callers and then by its own, and every list is a legal history of its shard.
//!
//! At the end [`House::close`] counts each shard's one history. It begins with the list of each caller, has just that
//! caller's calls of it, in that caller's order, and none of anyone else: `HasClosed` in `specs/Closes.antt` says so,
//! and [`callers_entries_stay`] adds the callers' own entries up to the whole.
#![tactic(auto)]

mod closing;
mod counting;
mod counts;
mod dealing;
mod desk;
mod house;
mod laws;
mod locks;
mod passes;
mod passes_list;
mod row_passes;
mod row_passes_list;
mod seating;

pub use counts::{HouseClosed, ShardCount};
pub use desk::HouseDesk;
pub use house::House;
pub use laws::{callers_entries_stay, names_tell_houses};
pub use locks::{ClosedList, Locks, ValueList};
pub use passes::Passes;
pub use passes_list::PassesList;
pub use row_passes::RowPasses;
pub use row_passes_list::RowPassesList;

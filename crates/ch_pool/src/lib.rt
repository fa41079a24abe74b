//! What runs of workers on threads have in common: the passes of all callers of a house, and how a run ended.
//!
//! Before the threads start, [`take_passes`] takes the passes of each caller of a house; once they are done,
//! [`give_passes`] gives them back, so that the house can be closed. A run ends as [`Ran`]: with a status, and where all
//! went well with the closed house and the workers, whose turns and connections are counted.
#![tactic(auto)]

mod all_passes;
mod ran;

pub use all_passes::{give_passes, take_passes};
pub use ran::{Ran, WorkerList};

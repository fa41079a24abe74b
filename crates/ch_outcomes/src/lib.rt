//! That a transcript has one outcome, so that what a replay answers and writes is exact.
//!
//! A transcript's outcome is defined in `ch_transcript` as a relation, since what its lines' free texts mean is one. Here it
//! is shown to be a function of the configuration and the bytes, and computed for one whole transcript. `specs/` also says
//! what a replay has to answer by it.
#![tactic(auto)]

mod examples;
mod laws;

pub use examples::worked_example_holds;
pub use laws::{one_outcome, one_play};

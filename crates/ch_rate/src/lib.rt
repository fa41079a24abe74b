//! The two limits in time of a connection: how many client events it may send, and how long it may be silent.
//!
//! A [`Rate`] stands for the list of the moments at which client events were accepted, and allows one more
//! exactly where that list does. An [`Activity`] is seen as when the connection was last heard and since when
//! a ping is out. A moment is a number of milliseconds, at most `LATEST_MOMENT`. Nothing here takes memory.
#![tactic(auto)]

mod activity;
mod examples;
mod limits;
mod rate;

pub use activity::{Activity, Due};
pub use examples::examples_hold;
pub use limits::{LIMIT, PATIENCE, SILENCE, WINDOW};
pub use rate::Rate;

//! The player of a transcript, over sessions and a bench of shards.
#![tactic(auto)]

mod greeting;
mod hooks;
mod json_string;
mod line_fault;
mod player;
mod publishing;
mod rounds;
mod seat;
mod seats;
mod telling;

pub use line_fault::LineFault;
pub use player::Player;

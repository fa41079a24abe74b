//! The seam to the outside of a whole server: where connections come in, where they are dialled, and how a thread rests
//! between its turns.
//!
//! What is promised of the counts holds for every version: no count falls, a call fails only where the count of faults
//! rose, and asks for patience only where the count of stalls rose. A link that comes in or is dialled is new: nothing was
//! read from it, written to it or counted. A rest gives out no result, so no turn's answer rests on it.
#![tactic(auto)]

mod accept;
mod dial;
mod mem_accept;
mod mem_dial;
mod mem_park;
mod park;

pub use accept::{Accept, Accepted};
pub use dial::{Dial, Dialed};
pub use mem_accept::MemAccept;
pub use mem_dial::MemDial;
pub use mem_park::{MemPark, NoWaker};
pub use park::{Park, Pause, Wake};

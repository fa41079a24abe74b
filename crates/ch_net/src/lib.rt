//! The seam to the connections: arrivals, which bring links of bytes, and the wire that a handshake
//! makes of a link, over which messages come and texts go (RFC 6455, section 6).
//!
//! Each object tells in one record what is left in it, what it gave and what it was sent, where that can
//! be known: over memory it can, over a socket it can't. What is promised of its counts holds for all of
//! them: no count falls, a call fails only where the count of faults rose, it asks for patience only where
//! the count of stalls rose, the other side has ended only where the count of ends rose, and no connection
//! is here only where the count of blanks rose.
#![tactic(auto)]

mod arrivals;
mod laws;
mod link;
mod mem_arrivals;
mod mem_link;
mod mem_wire;
mod messages;
mod script;
mod wire;

pub use arrivals::{Arrival, Arrivals};
pub use laws::{link_calls_chain, wire_calls_chain};
pub use link::{Link, LinkGot, LinkWrote, Unmade};
pub use mem_arrivals::MemArrivals;
pub use mem_link::MemLink;
pub use mem_wire::MemWire;
pub use script::{OtherSide, Script};
pub use wire::{Message, Pump, Put, Recv, Wire};

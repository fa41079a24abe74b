//! The texts of frames, as they stand on the wire (Pusher Channels protocol, version 7), and the escaping of strings
//! in them (RFC 8259, section 7).
//!
//! [`print`] gives exactly the printed text of a frame. A [`Press`] prints frames that many sockets get, each once. The
//! definitions are those of `ch_base`.
#![tactic(auto)]

mod error_texts;
mod escape;
mod events;
mod presence;
mod press;
mod printing;

pub use escape::{escape_into, quoted};
pub use press::Press;
pub use printing::print;

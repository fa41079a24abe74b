//! The answer to a WebSocket handshake (RFC 6455, section 4.2).
//!
//! [`shake`] gives exactly the bytes that answer a handshake: 101 with the accept value, or the refusal with 400 or 426.
//! [`handshake_key`] says which of them comes, by the head alone. The definitions are those of `ch_requests`.
#![tactic(auto)]

mod accepting;
mod fault;
mod judging;
mod replying;
mod value;

pub use accepting::accept_value;
pub use ch_requests::Shake;
pub use fault::HandshakeFault;
pub use judging::handshake_key;
pub use replying::shake;

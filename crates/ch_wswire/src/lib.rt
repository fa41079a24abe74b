//! The real edge: links, wires and listeners over the system's sockets, and the rest of a thread that serves them.
//!
//! A [`ReadyStream`] answers 'would block' by itself while its socket is known not to be ready; what it is told is only
//! ever when to ask again, and its bytes are the socket's, in order and none lost. A [`Poller`] is the thread's side: it
//! rests until the system or another thread has something, and marks the streams that events name. The thread that polls
//! is the thread that reads and writes, so between a refusal and the mark that it clears no event is overlooked.
//!
//! The events are edge-triggered: one comes at a change. So a mark is cleared in one place alone, where the system itself
//! has said 'would block', after which the next change is reported.
//!
//! Nothing here tells its content. What is promised is that of the seams: the counts, and what each answer's count says.
#![tactic(auto)]

mod bell;
mod poller;
mod ready;
mod ready_stream;
mod tcp_accept;
mod tcp_dial;
mod tcp_link;
mod tcp_wire;
mod tung_wire;

pub use bell::PollWaker;
pub use poller::{Pauses, Poller};
pub use ready::Ready;
pub use ready_stream::{Readiness, ReadyStream};
pub use tcp_accept::TcpAccept;
pub use tcp_dial::{PatientLink, TcpDial};
pub use tcp_link::TcpLink;
pub use tcp_wire::TcpWire;
pub use tung_wire::TungWire;

//! One live socket: a session and its wire, at any desk.
//!
//! A [`Live`] holds the frames that wait for its socket. A turn sends them while the wire takes them, then
//! hears at most one message, makes its asks at the desk, and lets the frame that answers it wait. Contracts
//! see what the wire tells of itself, who the socket is (a [`Peer`]), and which entries a turn adds to the
//! lists of the desk. A turn takes a course (`Course` of `specs/`), and `TakesCourse` says what is true of it.
#![tactic(auto)]

mod backlog;
mod connection;
mod farewell;
mod laws;
mod limits;
mod live;
mod peer;
mod receiving;
mod sending;
mod turn;
mod waiting;

pub use backlog::Backlog;
pub use connection::Connection;
pub use laws::{direct_frames_wait, idle_turns, marks_end, no_loss_is_left_out, turns_go_on};
pub use limits::MOST_FRAMES;
pub use live::{Live, Unlive};
pub use peer::Peer;
pub use turn::{Delivered, End, Farewell, Turn};
pub use waiting::Waiting;

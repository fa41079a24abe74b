//! One exchange of the HTTP API, or one WebSocket handshake, over any link and any desk.
//!
//! An [`Exchange`] reads the bytes of a request until they are one, makes its calls at the desk, and writes the reply as far
//! as the link takes it, a turn at a time. Contracts see what the link tells of itself, how far the exchange is (a [`Stage`]),
//! and which entries a turn adds to the lists of the desk. A turn takes a course (`Course` of `specs/`), and `TakesCourse`
//! says what is true of it. By [`one_reply`] all turns of an exchange write one reply, and by [`cuts_leave_no_trace`] it
//! doesn't depend on how the bytes of the request were cut.
#![tactic(auto)]

mod exchange;
mod laws;
mod limits;
mod pending;
mod reading;
mod replies;
mod reply_bytes;
mod serving;
mod stage;
mod turn;
mod writing;

pub use exchange::Exchange;
pub use laws::{cuts_leave_no_trace, idle_turns, links_move, meaning_stays, one_reply};
pub use limits::MOST_READ;
pub use pending::{After, PendingReply};
pub use stage::Stage;
pub use turn::ExTurn;

//! The clients of one worker, at any desk.
//!
//! A client speaks HTTP first, by one exchange, and after a handshake WebSocket, by a live socket. Frames are
//! handed to the clients by number, each client has its turn, and those whose connection ended leave: the
//! losses of their sessions are made by later visits. Contracts see who the clients are and what each of
//! their links tells, with no type of link in it, and say who stays, who leaves and who is dropped by the
//! course of each turn (`Turned` of `specs/`).
#![tactic(auto)]

mod answer;
mod client;
mod clients;
mod connected;
mod copies;
mod leaving;
mod limits;
mod lists;
mod next;
mod room;
mod server;
mod upgrade;

pub use answer::WorkerTurn;
pub use clients::Clients;
pub use limits::MOST_CLIENTS;

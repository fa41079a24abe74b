//! The threads of a server: one accepts connections, so many workers serve them, and one sends webhooks.
//!
//! The accepting thread numbers connections from 1 and hands each to the intake ([`AcceptingThread`]). A worker's thread
//! takes connections from there ([`IntakeArrivals`]) and turns at its desk in the house of shards ([`WorkerThread`]).
//! The webhook thread gathers the events of the channel shards and posts them in batches ([`WebhookThread`]). Between two
//! turns a thread rests until a socket is ready or another thread wakes it: who puts something out for others rings their
//! bells ([`Bells`]).
//!
//! [`serve`] runs them and closes the house at the end. Its contract says what each worker did from its first turn to its
//! last, and that each shard's one history holds what every worker did there, once and in its order
//! (`specs/Served.antt`). [`serve_config`] reads the configuration that a server is started with.
#![tactic(auto)]

mod accepting;
mod arrivals;
mod bells;
mod configuring;
mod counting;
mod desk;
mod ending;
mod laws;
mod numbered;
mod posting;
mod resting;
mod running;
mod serving;
mod starting;
mod threads;
mod working;

pub use accepting::AcceptingThread;
pub use arrivals::IntakeArrivals;
pub use bells::Bells;
pub use configuring::serve_config;
pub use desk::NotedDesk;
pub use laws::connections_are_numbered_once;
pub use numbered::Numbered;
pub use posting::{Sending, WebhookThread};
pub use serving::serve;
pub use working::WorkerThread;

//! A worker: one caller of many, which serves its clients at one desk, a turn at a time.
//!
//! A turn takes the frames that wait for the caller on each shard and hands them to the clients, makes the
//! losses of those who leave, lets one client in, and gives each a turn of its own. What a turn does is one
//! `Course` of `specs/`, and `TakesCourse` says what is true of it. The entries that it adds to the shards'
//! lists are those of its takes, its losses and its clients' asks, in this order, so the courses of many
//! turns chain by joining.
#![tactic(auto)]

mod gate;
mod laws;
mod taking;
mod worker;

pub use ch_clients::WorkerTurn;
pub use gate::{Gate, NoGate};
pub use laws::{
    answers_are_told, arrivals_are_let_in, nobody_is_lost, turns_are_whole, turns_chain,
};
pub use worker::Worker;

//! The configuration of a server: its app, what it allows, how it is split into shards and workers, where
//! it listens and where its webhooks go.
//!
//! All of a [`Config`] is public. Its numbers have bounds (`IsConfig` of `specs/`), which calls that take
//! one may ask for.
#![tactic(auto)]

mod address;
mod config;
mod limits;

pub use address::{Address, Target};
pub use config::Config;
pub use limits::{
    DEFAULT_SHARDS, DEFAULT_WORKERS, LONGEST_SECRET, LONGEST_WORD, MAX_SHARDS, MAX_WORKERS,
};

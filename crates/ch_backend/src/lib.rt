//! The app's back end in a transcript: the request that an `api` stands for, and what the bytes of a request do at
//! any desk and print.
//!
//! The definitions are those of `ch_transcript` and `ch_requests`, and each text is exactly theirs. Where the caller is alone at
//! the desk, the line of a request is exactly the transcript's.
#![tactic(auto)]

mod exchanging;
mod query;
mod replying;
mod request;

pub use exchanging::exchange;
pub use request::api_request;

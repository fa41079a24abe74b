//! A request to the HTTP API, answered at any desk: its calls are made there, one after another, and the reply is by their
//! answers.
#![tactic(auto)]

mod answering;

pub use answering::answer;

//! Requests to the HTTP API: what its definitions are about, and the definitions (Pusher Channels documentation, HTTP
//! API; RFC 9112).
//!
//! A crate of definitions, with no body of the program but the method of a route. `specs/` says which
//! bytes are which request, which request is authorized, which events a body triggers, which calls on
//! shards a request asks for, and what it and a handshake are answered.
#![tactic(auto)]

mod examples;
mod handshake;
mod head;
mod limits;
mod plan;
mod reply;
mod request;
mod trigger;

pub use examples::{authorization_examples_hold, examples_hold, plan_examples_hold};
pub use handshake::Shake;
pub use head::{FieldList, Head, HeadField};
pub use limits::{
    LONGEST_CONTENT, LONGEST_DATA, LONGEST_HEAD, LONGEST_WAIT, MAX_DIFFERENCE, MOST_CHANNELS,
    MOST_EVENTS, MOST_LINES,
};
pub use plan::{Counted, CountedList, Plan, Planned, ReplyForm, Wanted};
pub use reply::Reply;
pub use request::{Look, Request, Route};
pub use trigger::{Trigger, TriggerList};

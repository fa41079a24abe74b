//! From the bytes of a connection to a request of the HTTP API (RFC 9112; Pusher Channels documentation, HTTP API).
//!
//! A [`RequestReader`] keeps the bytes that came, and each look judges all of them: more are wanted, they ask for a
//! WebSocket, they are a whole request, or they are refused. There is one verdict on them, and once it is another than
//! that more are wanted, no bytes that follow change it.
#![tactic(auto)]

mod field;
mod first_bytes;
mod heading;
mod laws;
mod length;
mod place;
mod query;
mod reader;
mod route;
mod target;
mod verdict;

pub use ch_requests::{FieldList, Head, HeadField, Look, Request, Route};
pub use field::{field_lists, has_field, is_named};
pub use laws::{head_within, one_verdict, verdict_stays};
pub use query::{Query, read_query};
pub use reader::RequestReader;

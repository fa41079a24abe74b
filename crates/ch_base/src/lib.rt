//! The data that all crates share: texts, lists, the calls on shards with their answers, frames,
//! webhook events, and `Served`, whose calls are entries of a history.
//!
//! A `Text` is its bytes, which are UTF-8; a list is its elements in order; all other types are
//! plain data. `specs/` has the grammar of JSON texts (RFC 8259), what an object says by its
//! members, the escaping of strings, and what it means that a list of entries grows by a call.
#![tactic(auto)]

mod channel;
mod entry;
mod error_codes;
mod frame;
mod frame_list;
mod items;
mod limits;
mod memory;
mod printed;
mod served;
mod shared;
mod text;
mod user;
mod webhook;

pub use channel::{CacheRow, ChanAnswer, ChanCall, Member, NameRow};
pub use entry::Entry;
pub use error_codes::{
    ALREADY_SIGNED_IN, ALREADY_SUBSCRIBED, CHANNEL_FULL, CLIENT_EVENT_REFUSED,
    INVALID_CHANNEL_DATA, INVALID_CHANNEL_NAME, INVALID_SIGNATURE, INVALID_USER_DATA,
    INVALID_VERSION, MALFORMED_MESSAGE, MESSAGE_TOO_LONG, NO_PONG, NO_VERSION, NOT_SUBSCRIBED,
    OUT_OF_MEMORY, OVER_CAPACITY, RATE_LIMIT_REACHED, RECONNECT, TOO_MANY_SUBSCRIPTIONS,
    UNAUTHORIZED, UNKNOWN_APP, UNKNOWN_EVENT, UNKNOWN_PATH, UNSUPPORTED_VERSION,
};
pub use frame::{Frame, FrameFor};
pub use frame_list::FrameList;
pub use items::{Bytes, HookList, Items, MemberList, NameRows, TextList};
pub use limits::{LATEST_MOMENT, MAX_CALLERS, MAX_DEPTH};
pub use memory::Memory;
pub use printed::Printed;
pub use served::Served;
pub use shared::Shared;
pub use text::Text;
pub use user::{UserAnswer, UserCall};
pub use webhook::Hook;

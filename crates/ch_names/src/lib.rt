//! The names of Pusher Channels: kinds of channel, event names, user ids, the users' own channels
//! and socket ids, each accepted exactly by its rule, and the shard on which a name has its place.
//!
//! Nothing here takes memory, but for the name of a user's own channel.
#![tactic(auto)]

mod channel_kind;
mod channel_name;
mod examples;
mod fault;
mod placement;
mod socket_id;
mod user_name;

pub use channel_kind::Kind;
pub use channel_name::{
    event_name, is_cache, is_event_name, is_good_name, is_presence, kind, kind_of,
};
pub use examples::examples_hold;
pub use fault::NameFault;
pub use placement::shard_of;
pub use socket_id::{SocketId, socket_number};
pub use user_name::{
    is_subscribable, is_user_channel, is_user_id, own_channel, user_channel, user_id,
};

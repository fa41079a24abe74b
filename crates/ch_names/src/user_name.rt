ghost use Rattle.std.specs.Prelude.{◌≡◌, ◌↔◌, ℕ, List, IsTrue, IsOk, IfOk, IfSome, IfNone};
ghost use Rattle.std.specs.Option.{option_copied};
ghost use Rattle.std.specs.Result.{result_err};
ghost use Rattle.ch_history.specs.declared.limits.TheConstants.{MAX_USER_ID};
ghost use Rattle.ch_history.specs.Limits.{is_user_id};
ghost use Rattle.ch_history.specs.UserChannels.{channel_user, is_subscribable, is_user_channel};
ghost use Rattle.ch_history.specs.UserFrames.{user_channel};
ghost use Rattle.ch_names.specs.Faults.{length_fault};

use crate::channel_name::is_good_name;
use crate::fault::{NameFault, check_length};
use ch_base::{Memory, Text};
use ch_history::MAX_USER_ID;
use std::alloc::Global;

/// What stands before the user's id in the name of a user's own channel (Pusher Channels, "Sending
/// events to authenticated users").
const USER_PREFIX: &str = "#server-to-user-";

/// A user id has 1 to `MAX_USER_ID` bytes, of any kind.
pub fn user_id(id: &str) -> Result<(), NameFault>
    ensures good { IsOk result ↔ IsTrue (is_user_id id.now) }
    ensures fault { result_err result ≡ length_fault MAX_USER_ID id.now }
{
    check_length(id, MAX_USER_ID)
}

/// Whether a user may have this id: 1 to `MAX_USER_ID` bytes.
pub fn is_user_id(id: &str) -> bool
    ensures { result ≡ is_user_id id.now }
{
    user_id(id).is_ok()
}

/// The user whose own channel has this name, `#server-to-user-` and a good user id (Pusher Channels,
/// "Sending events to authenticated users"); none for any other name.
pub fn user_channel(name: &str) -> Option<&str>
    ensures user { option_copied result ≡ channel_user name.now }
    ensures channel { IfSome result (λ id. name.now ≡ user_channel id.now) }
    ensures good { IfSome result (λ id. IsTrue (is_user_id id.now)) }
    ensures none { IfNone result ((id : List ℕ) → name.now ≡ user_channel id → ¬ IsTrue (is_user_id id)) }
{
    let id = name.strip_prefix(USER_PREFIX)?;
    if is_user_id(id) { Some(id) } else { None }
}

/// Whether the name is that of a user's own channel.
pub fn is_user_channel(name: &str) -> bool
    ensures { result ≡ is_user_channel name.now }
{
    user_channel(name).is_some()
}

/// Whether sockets subscribe to a channel of this name: a good name, or a user's own channel.
pub fn is_subscribable(channel: &str) -> bool
    ensures { result ≡ is_subscribable channel.now }
{
    is_good_name(channel) || is_user_channel(channel)
}

/// The name of the user's own channel.
pub fn own_channel(alloc: Global, user: &str) -> Result<Text, Memory>
    ensures { IfOk result (λ channel. channel ≡ user_channel user.now) }
{
    let mut channel = Text::of(alloc, USER_PREFIX)?;
    channel.push_str(user)?;
    Ok(channel)
}

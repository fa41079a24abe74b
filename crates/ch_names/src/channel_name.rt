ghost use Rattle.std.specs.Prelude.{◌≡◌, ◌↔◌, IsTrue, IsOk, IfOk, not};
ghost use Rattle.std.specs.List.{position_from};
ghost use Rattle.std.specs.Result.{result_err};
ghost use Rattle.ch_history.specs.declared.limits.TheConstants.{MAX_NAME};
ghost use Rattle.ch_history.specs.ChannelName.{is_cache, is_good_name, is_name_byte, is_presence, kind_of};
ghost use Rattle.ch_history.specs.Limits.{is_event_name};
ghost use Rattle.ch_names.specs.Faults.{length_fault, name_fault};
ghost use Rattle.ch_names.specs.KindMeaning.{meaning};

use crate::channel_kind::Kind;
use crate::fault::{NameFault, check_length};
use ch_history::MAX_NAME;

/// The kind of the channel of this name: that of the longest prefix with which the name begins. The
/// name has 1 to `MAX_NAME` bytes, each a letter, a digit or one of `_-=@,.;`.
pub fn kind(name: &str) -> Result<Kind, NameFault>
    ensures good { IsOk result ↔ IsTrue (is_good_name name.now) }
    ensures kind { IfOk result (λ k. meaning k ≡ kind_of name.now) }
    ensures fault { result_err result ≡ name_fault name.now }
{
    check_length(name, MAX_NAME)?;
    match first_stray(name.as_bytes()) {
        Some(at) => Err(NameFault::Byte(at as u64)),
        None => Ok(kind_of(name)),
    }
}

/// Whether a channel may have this name: 1 to `MAX_NAME` bytes of the alphabet of channel names.
pub fn is_good_name(name: &str) -> bool
    ensures { result ≡ is_good_name name.now }
{
    kind(name).is_ok()
}

/// The kind that the longest prefix with which a text begins tells, whether it is a good name or
/// not. A text that begins with none of them is of the public kind.
pub fn kind_of(name: &str) -> Kind
    ensures { meaning result ≡ kind_of name.now }
{
    kind_by_prefix(name.as_bytes())
}

/// Whether the channel of this name has members that all its subscribers see.
pub fn is_presence(name: &str) -> bool
    ensures { result ≡ is_presence name.now }
{
    kind_of(name).presence()
}

/// Whether the channel of this name keeps its latest event for newcomers.
pub fn is_cache(name: &str) -> bool
    ensures { result ≡ is_cache name.now }
{
    kind_of(name).cached()
}

/// An event's name has 1 to `MAX_NAME` bytes, of any kind.
pub fn event_name(name: &str) -> Result<(), NameFault>
    ensures good { IsOk result ↔ IsTrue (is_event_name name.now) }
    ensures fault { result_err result ≡ length_fault MAX_NAME name.now }
{
    check_length(name, MAX_NAME)
}

/// Whether an event may have this name: 1 to 200 bytes.
pub fn is_event_name(name: &str) -> bool
    ensures { result ≡ is_event_name name.now }
{
    event_name(name).is_ok()
}

/// The place of the first byte outside the alphabet of channel names.
fn first_stray(name: &[u8]) -> Option<usize>
    ensures { result ≡ position_from (λ x. not (is_name_byte x)) 0 name.now }
{
    name.iter().position(|byte| !is_name_byte(*byte))
}

/// Whether the byte is of the alphabet of channel names.
fn is_name_byte(byte: u8) -> bool
    ensures { result ≡ is_name_byte byte }
{
    byte.is_ascii_alphanumeric() || b"_-=@,.;".contains(&byte)
}

fn kind_by_prefix(name: &[u8]) -> Kind
    ensures { meaning result ≡ kind_of name.now }
{
    if name.starts_with(b"private-encrypted-cache-") {
        Kind::EncryptedCache
    } else if name.starts_with(b"private-encrypted-") {
        Kind::Encrypted
    } else if name.starts_with(b"presence-cache-") {
        Kind::PresenceCache
    } else if name.starts_with(b"private-cache-") {
        Kind::PrivateCache
    } else if name.starts_with(b"presence-") {
        Kind::Presence
    } else if name.starts_with(b"private-") {
        Kind::Private
    } else if name.starts_with(b"cache-") {
        Kind::Cache
    } else {
        Kind::Public
    }
}

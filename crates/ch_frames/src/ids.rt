//! Good user ids.
ghost use Rattle.std.specs.Prelude.{◌≡◌};
ghost use Rattle.std.specs.List.{list_all, list_any};
ghost use Rattle.ch_history.specs.Limits.{is_user_id};
ghost use Rattle.ch_protocol.specs.ChannelData.{is_whole};
ghost use Rattle.ch_frames.specs.Ids.{good_id, good_ids, whole_id, is_point_or_e};

use ch_base::{Text, TextList};
use ch_names::is_user_id;

/// The id where it is a good user id.
pub fn good_id(id: Text) -> Option<Text>
    ensures { result ≡ good_id id }
{
    if is_good(&id) { Some(id) } else { None }
}

/// The ids where all are good user ids.
pub fn good_ids(ids: TextList) -> Option<TextList>
    ensures { result ≡ good_ids ids }
{
    if are_good(ids.as_slice()) {
        Some(ids)
    } else {
        None
    }
}

fn are_good(ids: &[Text]) -> bool
    ensures { result ≡ list_all is_user_id ids.now }
{
    ids.iter().all(|id| is_good(id))
}

fn is_good(id: &Text) -> bool
    ensures { result ≡ is_user_id id.now }
{
    is_user_id(id.as_str())
}

/// The number where it is whole and, as it is spelled, a good user id.
pub fn whole_id(number: Text) -> Option<Text>
    ensures { result ≡ whole_id number }
{
    if is_whole(number.as_str()) {
        good_id(number)
    } else {
        None
    }
}

/// Whether a number has neither a fraction nor an exponent.
fn is_whole(number: &str) -> bool
    ensures { result ≡ is_whole number.now }
{
    !has_point_or_e(number.as_bytes())
}

fn has_point_or_e(number: &[u8]) -> bool
    ensures { result ≡ list_any is_point_or_e number.now }
{
    number.iter().any(|byte| is_point_or_e(*byte))
}

/// Whether the byte begins a fraction or an exponent.
fn is_point_or_e(byte: u8) -> bool
    ensures { result ≡ is_point_or_e byte }
{
    matches!(byte, b'.' | b'e' | b'E')
}

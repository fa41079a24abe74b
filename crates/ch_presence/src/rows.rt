ghost use Rattle.std.specs.Prelude.{◌≡◌, ◌==◌, ◌&&◌, [], bytes_eq, find, not};
ghost use Rattle.std.specs.List.{list_any};
ghost use Rattle.std.specs.Option.{option_copied};
ghost use Rattle.ch_history.specs.Texts.{has_text};
ghost use Rattle.ch_presence.specs.Users.{with_member};
ghost use Rattle.ch_presence.specs.Members.{present_on, members_on, ids_on, is_row_of, without};

use crate::present::Present;
use ch_base::{Member, Text};
use ch_index::Index;

/// Whether the user is on the channel.
pub fn has_user(index: &Index<Present>, channel: &Text, user_id: &Text) -> bool
    ensures { result ≡ has_text (ids_on index.now channel.now) user_id.now }
{
    is_any(index, channel, user_id)
}

/// Whether some row of the channel has this user.
fn is_any(index: &Index<Present>, channel: &Text, user_id: &Text) -> bool
    ensures { result ≡ list_any (λ r. bytes_eq r.member.user_id user_id.now) (present_on index.now channel.now) }
{
    let mut walk = index.walk(channel);
    'walk: while let Some(row) = walk.next() {
        if row.member.user_id == *user_id {
            return true;
        }
    }
    false
}

/// Whether another socket than this one is on the channel as the user.
pub fn has_another(index: &Index<Present>, channel: &Text, socket: u64, user_id: &Text) -> bool
    ensures { result ≡ has_text (ids_on (without index.now channel.now socket) channel.now) user_id.now }
{
    is_another(index, channel, socket, user_id)
}

/// Whether some row of the channel has another socket than this one and this user.
fn is_another(index: &Index<Present>, channel: &Text, socket: u64, user_id: &Text) -> bool
    ensures { result ≡ list_any (λ r. not (r.socket == socket) && bytes_eq r.member.user_id user_id.now) (present_on index.now channel.now) }
{
    let mut walk = index.walk(channel);
    'walk: while let Some(row) = walk.next() {
        if row.socket != socket && row.member.user_id == *user_id {
            return true;
        }
    }
    false
}

/// The user of the channel, with the info of its oldest row. The newcomer counts as the last member.
pub fn first_member<'a>(
    index: &'a Index<Present>,
    newcomer: Option<&'a Member>,
    channel: &Text,
    user_id: &Text,
) -> Option<&'a Member>
    ensures { option_copied result ≡ find (λ m. bytes_eq m.user_id user_id.now)
        (with_member (members_on index.now channel.now) (option_copied newcomer.entry)) }
{
    match first_of(index, channel, user_id) {
        Some(row) => Some(&row.member),
        None => own(newcomer, user_id),
    }
}

/// The newcomer, where it is this user.
fn own<'a>(newcomer: Option<&'a Member>, user_id: &Text) -> Option<&'a Member>
    ensures { option_copied result ≡ find (λ m. bytes_eq m.user_id user_id.now) (with_member [] (option_copied newcomer.entry)) }
{
    match newcomer {
        Some(member) if member.user_id == *user_id => Some(member),
        _ => None,
    }
}

/// The oldest row of the channel with this user.
fn first_of<'a>(index: &'a Index<Present>, channel: &Text, user_id: &Text) -> Option<&'a Present>
    ensures { option_copied result ≡ find (λ r. bytes_eq r.member.user_id user_id.now) (present_on index.now channel.now) }
{
    let mut walk = index.walk(channel);
    'walk: while let Some(row) = walk.next() {
        if row.member.user_id == *user_id {
            return Some(row);
        }
    }
    None
}

/// The socket's row on the channel.
pub fn row_of<'a>(index: &'a Index<Present>, channel: &Text, socket: u64) -> Option<&'a Present>
    ensures { option_copied result ≡ find (is_row_of channel.now socket) index.now }
{
    index.find(socket, channel)
}

ghost use Rattle.std.specs.Prelude.{◌≡◌, ◌&&◌, length, find, slice_get, Some};
ghost use Rattle.std.specs.Option.{option_copied};
ghost use Rattle.ch_presence.specs.Members.{members_on, ids_on};
ghost use Rattle.ch_presence.specs.Users.{is_above, is_lower, least_with, with_member, users_of, infos_of};

use crate::present::Present;
use crate::rows::first_member;
use ch_base::{Member, Text};
use ch_index::Index;

/// How many users are on the channel.
pub fn count(index: &Index<Present>, channel: &Text) -> u64
    ensures { result ≡ length (ids_on index.now channel.now) }
{
    let rows = index.count(channel);
    let mut id = next_id(index, channel, None);
    for place in 0..rows {
        match id {
            None => return place,
            Some(last) => id = next_id(index, channel, Some(last)),
        }
    }
    rows
}

/// The user with this place in the order of the ids, counted from 0, with the info of its oldest row.
/// The newcomer counts as the last member.
pub fn nth_user<'a>(
    index: &'a Index<Present>,
    newcomer: Option<&'a Member>,
    channel: &Text,
    at: u64,
) -> Option<&'a Member>
    ensures { option_copied result ≡ slice_get (infos_of (with_member (members_on index.now channel.now) (option_copied newcomer.entry))) at }
{
    let id = nth_id(index, newcomer, channel, at)?;
    first_member(index, newcomer, channel, id)
}

/// The id with this place among those of the channel's users, ascending, counted from 0.
fn nth_id<'a>(
    index: &'a Index<Present>,
    newcomer: Option<&'a Member>,
    channel: &Text,
    at: u64,
) -> Option<&'a Text>
    ensures { option_copied result ≡ slice_get (users_of (with_member (members_on index.now channel.now) (option_copied newcomer.entry))) at }
{
    let mut id = next_of_all(index, newcomer, channel, None);
    for place in 0..at {
        match id {
            None => return None,
            Some(last) => id = next_of_all(index, newcomer, channel, Some(last)),
        }
    }
    id
}

/// The least id of the channel's users that comes after the given one, if one is given. The newcomer
/// counts as the last member.
fn next_of_all<'a>(
    index: &'a Index<Present>,
    newcomer: Option<&'a Member>,
    channel: &Text,
    after: Option<&Text>,
) -> Option<&'a Text>
    ensures { option_copied result ≡ find (is_above (option_copied after.entry))
        (users_of (with_member (members_on index.now channel.now) (option_copied newcomer.entry))) }
{
    let least = next_id(index, channel, after);
    match newcomer {
        Some(newcomer) => least_with(least, &newcomer.user_id, after),
        None => least,
    }
}

/// The least id of the channel's rows that comes after the given one, if one is given.
fn next_id<'a>(index: &'a Index<Present>, channel: &Text, after: Option<&Text>) -> Option<&'a Text>
    ensures { option_copied result ≡ find (is_above (option_copied after.entry)) (ids_on index.now channel.now) }
{
    let mut least: Option<&'a Text> = None;
    let mut walk = index.walk(channel);
    'walk: while let Some(row) = walk.next() {
        least = least_with(least, &row.member.user_id, after);
    }
    least
}

/// The least id with this one, where that counts.
fn least_with<'a>(least: Option<&'a Text>, id: &'a Text, after: Option<&Text>) -> Option<&'a Text>
    ensures { option_copied result ≡ least_with (option_copied after.entry) (option_copied least.entry) id.now }
{
    if is_above(after, id) && is_lower(id, least) {
        Some(id)
    } else {
        least
    }
}

/// Whether the id comes after the given one, if one is given.
fn is_above(after: Option<&Text>, id: &Text) -> bool
    ensures { result ≡ is_above (option_copied after.entry) id.now }
{
    match after {
        None => true,
        Some(after) => *after < *id,
    }
}

/// Whether the id comes before the least one so far, if there is one.
fn is_lower(id: &Text, least: Option<&Text>) -> bool
    ensures { result ≡ is_lower id.now (option_copied least.entry) }
{
    match least {
        None => true,
        Some(least) => *id < *least,
    }
}

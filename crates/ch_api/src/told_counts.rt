//! The counts of channels, as a reply tells them.
ghost use Rattle.std.specs.Prelude.{◌≡◌, ◌++◌, map, string_bytes, IfOk, OnOk};
ghost use Rattle.std.specs.Fmt.{decimal};
ghost use Rattle.ch_requests.specs.Replies.{when, member_text, count_members, counts_text, sent_counts, named_counts, each_counts};

use crate::json_texts::{member_text, object_text};
use ch_base::{ChanAnswer, Memory};
use ch_protocol::Made;
use ch_requests::{Counted, Wanted};
use std::alloc::Global;

/// Adds the members that tell the counts that are wanted.
pub(crate) fn push_counts(
    alloc: Global,
    members: &mut Vec<String>,
    wanted: Wanted,
    subs: u64,
    users: u64,
) -> Result<(), Memory>
    ensures { OnOk result (map string_bytes members.new.items ≡ map string_bytes members.old.items ++ count_members wanted subs users) }
{
    push_count(alloc, members, wanted.users, "user_count", users)?;
    push_count(alloc, members, wanted.subs, "subscription_count", subs)
}

/// Adds the member that tells a count, where it is wanted.
fn push_count(
    alloc: Global,
    members: &mut Vec<String>,
    wanted: bool,
    name: &str,
    count: u64,
) -> Result<(), Memory>
    ensures { OnOk result (map string_bytes members.new.items ≡ map string_bytes members.old.items ++ when wanted (member_text name.now (decimal count))) }
{
    if wanted {
        let count = format!(in alloc; "{count}")?;
        members.push(member_text(alloc, name, count.as_str())?)?;
    }
    Ok(())
}

/// The object of the counts that are wanted.
pub(crate) fn counts_text(
    alloc: Global,
    wanted: Wanted,
    subs: u64,
    users: u64,
) -> Result<String, Memory>
    ensures { IfOk result (λ t. string_bytes t ≡ counts_text wanted subs users) }
{
    let mut members = Vec::new(alloc);
    push_counts(alloc, &mut members, wanted, subs, users)?;
    object_text(alloc, &members)
}

/// The counts that answer a publish. Of a user's own channel none are told.
fn sent_counts(alloc: Global, wanted: Wanted, made: &Made) -> Result<String, Memory>
    ensures { IfOk result (λ t. string_bytes t ≡ sent_counts wanted made.now) }
{
    match made {
        Made::Chan(ChanAnswer::Sent { subs, users }) => counts_text(alloc, wanted, *subs, *users),
        _ => object_text(alloc, &[]),
    }
}

/// Each channel with its counts, under its name.
pub(crate) fn named_counts(
    alloc: Global,
    counted: &[Counted],
    mades: &[Made],
) -> Result<Vec<String>, Memory>
    ensures { IfOk result (λ texts. map string_bytes texts.items ≡ named_counts counted.now mades.now) }
{
    let mut texts = Vec::new(alloc);
    'channels: for (channel, made) in counted.iter().zip(mades) {
        texts.push(named_count(alloc, channel, made)?)?;
    }
    Ok(texts)
}

fn named_count(alloc: Global, counted: &Counted, made: &Made) -> Result<String, Memory>
    ensures { IfOk result (λ t. string_bytes t ≡ member_text counted.now.channel (sent_counts counted.now.wanted made.now)) }
{
    let counts = sent_counts(alloc, counted.wanted, made)?;
    member_text(alloc, counted.channel.as_str(), counts.as_str())
}

/// The counts of each event's channel.
pub(crate) fn each_counts(
    alloc: Global,
    counted: &[Counted],
    mades: &[Made],
) -> Result<Vec<String>, Memory>
    ensures { IfOk result (λ texts. map string_bytes texts.items ≡ each_counts counted.now mades.now) }
{
    let mut texts = Vec::new(alloc);
    'channels: for (channel, made) in counted.iter().zip(mades) {
        texts.push(sent_counts(alloc, channel.wanted, made)?)?;
    }
    Ok(texts)
}

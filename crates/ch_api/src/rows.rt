//! The channels that all shards told, ascending by name.
ghost use Rattle.std.specs.Prelude.{◌≡◌, map, string_bytes, IfOk, OnOk};
ghost use Rattle.std.specs.List.{prefix_len};
ghost use Rattle.ch_sig.specs.Parameters.{is_before};
ghost use Rattle.ch_api.specs.RowOrder.{AreInOrder};
ghost use Rattle.ch_requests.specs.Replies.{with_rows, rows_in, all_rows, row_member};

use crate::json_texts::member_text;
use crate::told_counts::counts_text;
use ch_base::{ChanAnswer, Memory, NameRow};
use ch_protocol::Made;
use ch_requests::Wanted;
use std::alloc::Global;

/// The members that tell the counts of the channels of all shards.
pub(crate) fn row_members(
    alloc: Global,
    wanted: Wanted,
    mades: &[Made],
) -> Result<Vec<String>, Memory>
    ensures { IfOk result (λ texts. map string_bytes texts.items ≡ map (row_member wanted) (all_rows mades.now)) }
{
    let rows = all_rows(alloc, mades)?;
    let mut texts = Vec::new(alloc);
    for row in &rows {
        texts.push(row_member(alloc, wanted, row)?)?;
    }
    Ok(texts)
}

fn row_member(alloc: Global, wanted: Wanted, row: &NameRow) -> Result<String, Memory>
    ensures { IfOk result (λ t. string_bytes t ≡ row_member wanted row.now) }
{
    let counts = counts_text(alloc, wanted, row.subs, row.users)?;
    member_text(alloc, row.channel.as_str(), counts.as_str())
}

/// The rows of all shards, ascending by name.
fn all_rows<'a>(alloc: Global, mades: &'a [Made]) -> Result<Vec<&'a NameRow>, Memory>
    ensures { IfOk result (λ rows. map (λ r. r.now) rows.items ≡ all_rows mades.entry.now) }
{
    let mut rows = Vec::new(alloc);
    for made in mades {
        add_rows(&mut rows, rows_in(made))?;
    }
    Ok(rows)
}

/// The rows that a channel shard answered.
fn rows_in(made: &Made) -> &[NameRow]
    ensures { result.now ≡ rows_in made.now }
{
    match made {
        Made::Chan(ChanAnswer::Rows(rows)) => rows.as_slice(),
        _ => &[],
    }
}

/// Adds rows, each at its place by its name.
fn add_rows<'a>(rows: &mut Vec<&'a NameRow>, more: &'a [NameRow]) -> Result<(), Memory>
    requires { AreInOrder (map (λ r. r.now) rows.old.items) }
    ensures { OnOk result (map (λ r. r.now) rows.new.items ≡ with_rows (map (λ r. r.now) rows.old.items) more.entry.now) }
{
    for row in more {
        let place = place_of(rows.as_slice(), row.channel.as_str());
        rows.insert(place, row)?;
    }
    Ok(())
}

/// How many of the first rows have names that come before this one.
fn place_of(rows: &[&NameRow], name: &str) -> usize
    requires { AreInOrder (map (λ r. r.now) rows.now) }
    ensures { result ≡ prefix_len (λ row. is_before row.now.channel name.now) rows.entry.now }
{
    rows.partition_point(|row| row.channel.as_str() < name)
}

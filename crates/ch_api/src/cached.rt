//! The latest event of a channel, as a reply tells it.
ghost use Rattle.std.specs.Prelude.{◌≡◌, ◌++◌, map, codes, string_bytes, IfOk, OnOk, Some};
ghost use Rattle.std.specs.Option.{option_copied};
ghost use Rattle.ch_requests.specs.Replies.{when, member_text, cache_text};

use crate::json_texts::{member_text, object_text};
use ch_base::{CacheRow, Memory};
use std::alloc::Global;

/// Adds the member that tells the latest event, where it is asked for.
pub(crate) fn push_cache(
    alloc: Global,
    members: &mut Vec<String>,
    wanted: bool,
    row: Option<&CacheRow>,
) -> Result<(), Memory>
    ensures { OnOk result (map string_bytes members.new.items ≡ map string_bytes members.old.items ++ when wanted (member_text (codes "cache") (cache_text (option_copied row.entry)))) }
{
    if wanted {
        let cache = cache_text(alloc, row)?;
        members.push(member_text(alloc, "cache", cache.as_str())?)?;
    }
    Ok(())
}

/// The event's data and the seconds until it ends, or `null` where there is none.
fn cache_text(alloc: Global, row: Option<&CacheRow>) -> Result<String, Memory>
    ensures { IfOk result (λ t. string_bytes t ≡ cache_text (option_copied row.entry)) }
{
    match row {
        None => Ok(format!(in alloc; "null")?),
        Some(row) => row_text(alloc, row),
    }
}

/// The event's data as spelled, and the seconds until it ends.
fn row_text(alloc: Global, row: &CacheRow) -> Result<String, Memory>
    ensures { IfOk result (λ t. string_bytes t ≡ cache_text (Some row.now)) }
{
    let ttl = row.ttl;
    let ttl = format!(in alloc; "{ttl}")?;
    let mut members = Vec::new(alloc);
    members.push(member_text(alloc, "data", row.body.as_str())?)?;
    members.push(member_text(alloc, "ttl", ttl.as_str())?)?;
    object_text(alloc, &members)
}

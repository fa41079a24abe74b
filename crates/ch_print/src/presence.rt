//! What is told of a presence channel's members, as JSON texts.
ghost use Rattle.std.specs.Prelude.{◌≡◌, IfOk, string_bytes, codes};
ghost use Rattle.std.specs.List.{join_by};
ghost use Rattle.ch_base.specs.PresenceData.{id_of, info_of, roster, member_added_data, member_removed_data};

use crate::escape::quoted;
use ch_base::{Member, Memory};
use std::alloc::Global;

/// All members: their ids, their infos by id, and how many they are.
pub fn roster(alloc: Global, rows: &[Member]) -> Result<String, Memory>
    ensures { IfOk result (λ t. string_bytes t ≡ roster rows.now) }
{
    let ids = ids(alloc, rows)?;
    let ids = ids.as_str();
    let infos = infos(alloc, rows)?;
    let infos = infos.as_str();
    let count = rows.len();
    let text = format!(in alloc;
        "{{\"presence\":{{\"ids\":[{ids}],\"hash\":{{{infos}}},\"count\":{count}}}}}"
    )?;
    Ok(text)
}

fn ids(alloc: Global, rows: &[Member]) -> Result<String, Memory>
    ensures { IfOk result (λ t. string_bytes t ≡ join_by id_of (codes ",") rows.now) }
{
    let mut ids = Vec::new(alloc);
    for row in rows {
        ids.push(quoted(alloc, row.user_id.as_str())?)?;
    }
    let text = ids.join(alloc, ",")?;
    Ok(text)
}

fn infos(alloc: Global, rows: &[Member]) -> Result<String, Memory>
    ensures { IfOk result (λ t. string_bytes t ≡ join_by info_of (codes ",") rows.now) }
{
    let mut infos = Vec::new(alloc);
    for row in rows {
        infos.push(info(alloc, row)?)?;
    }
    let text = infos.join(alloc, ",")?;
    Ok(text)
}

fn info(alloc: Global, member: &Member) -> Result<String, Memory>
    ensures { IfOk result (λ t. string_bytes t ≡ info_of member.now) }
{
    let user_id = quoted(alloc, member.user_id.as_str())?;
    let user_id = user_id.as_str();
    let info = member.info.as_str();
    let text = format!(in alloc; "{user_id}:{info}")?;
    Ok(text)
}

/// A member that is new.
pub fn arrival(alloc: Global, member: &Member) -> Result<String, Memory>
    ensures { IfOk result (λ t. string_bytes t ≡ member_added_data member.now) }
{
    let user_id = quoted(alloc, member.user_id.as_str())?;
    let user_id = user_id.as_str();
    let info = member.info.as_str();
    let text = format!(in alloc; "{{\"user_id\":{user_id},\"user_info\":{info}}}")?;
    Ok(text)
}

/// A member that is gone.
pub fn departure(alloc: Global, user_id: &str) -> Result<String, Memory>
    ensures { IfOk result (λ t. string_bytes t ≡ member_removed_data user_id.now) }
{
    let user_id = quoted(alloc, user_id)?;
    let user_id = user_id.as_str();
    let text = format!(in alloc; "{{\"user_id\":{user_id}}}")?;
    Ok(text)
}

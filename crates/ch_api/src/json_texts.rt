//! JSON texts (RFC 8259).
ghost use Rattle.std.specs.Prelude.{◌≡◌, IfOk, map, string_bytes};
ghost use Rattle.ch_requests.specs.Replies.{object_text, array_text, member_text, single_text};

use ch_base::{Bytes, Memory};
use ch_json::quoted;
use std::alloc::Global;

/// The object of members (section 4).
pub(crate) fn object_text(alloc: Global, members: &[String]) -> Result<String, Memory>
    ensures { IfOk result (λ t. string_bytes t ≡ object_text (map string_bytes members.now)) }
{
    let members = members.join(alloc, ",")?;
    let members = members.as_str();
    let text = format!(in alloc; "{{{members}}}")?;
    Ok(text)
}

/// The array of values (section 5).
pub(crate) fn array_text(alloc: Global, values: &[String]) -> Result<String, Memory>
    ensures { IfOk result (λ t. string_bytes t ≡ array_text (map string_bytes values.now)) }
{
    let values = values.join(alloc, ",")?;
    let values = values.as_str();
    let text = format!(in alloc; "[{values}]")?;
    Ok(text)
}

/// A member, by its name and its value.
pub(crate) fn member_text(alloc: Global, name: &str, value: &str) -> Result<String, Memory>
    ensures { IfOk result (λ t. string_bytes t ≡ member_text name.now value.now) }
{
    let name = quoted(alloc, name)?;
    let name = name.as_str();
    let text = format!(in alloc; "{name}:{value}")?;
    Ok(text)
}

/// The object with one member.
pub(crate) fn single_text(alloc: Global, name: &str, value: &str) -> Result<String, Memory>
    ensures { IfOk result (λ t. string_bytes t ≡ single_text name.now value.now) }
{
    let member = member_text(alloc, name, value)?;
    let member = member.as_str();
    let text = format!(in alloc; "{{{member}}}")?;
    Ok(text)
}

/// The bytes of a text; this takes no memory.
pub(crate) fn bytes_of(text: String) -> Bytes
    ensures { result ≡ string_bytes text }
{
    Bytes::from_vec(text.into_bytes())
}

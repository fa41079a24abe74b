ghost use Rattle.std.specs.Prelude.{◌≡◌, IfOk, is_some};
ghost use Rattle.std.specs.Str.{str_to_ascii_lowercase};
ghost use Rattle.ch_protocol.specs.Targets.{form_text};
ghost use Rattle.ch_requests.specs.Queries.{params_of, members_of, has_double};
ghost use Rattle.ch_sig.specs.Parameters.{value_of};
ghost use Rattle.ch_http.specs.Members.{with_member};

use ch_base::{Memory, Text};
use ch_sig::{Inserted, Params};
use form_urlencoded::{decode, raw_pairs};
use std::alloc::Global;

/// What a query says.
#[derive(Debug, Drop)]
pub struct Query {
    /// Its members, decoded, with their names in lower case. Of a name that stands twice, the first value.
    pub params: Params,
    /// Whether a name stands twice.
    pub doubled: bool,
}

/// Reads the query of a target (URL Standard, section 5).
///
/// An escape that isn't one, as `%zz`, stays as it is, and U+FFFD stands for what isn't UTF-8.
pub fn read_query(alloc: Global, query: &str) -> Result<Query, Memory>
    ensures params { IfOk result (λ q. q.params ≡ params_of query.now) }
    ensures doubled { IfOk result (λ q. q.doubled ≡ has_double (members_of query.now)) }
{
    let mut params = Params::new(alloc);
    let mut doubled = false;
    'members: for (name, value) in raw_pairs(query.as_bytes()) {
        let name = lower_text(alloc, name)?;
        let value = form_text(alloc, value)?;
        doubled |= is_double(&mut params, name, value)?;
    }
    Ok(Query { params, doubled })
}

/// Adds a member, unless its name is there; tells whether it was there.
fn is_double(params: &mut Params, name: Text, value: Text) -> Result<bool, Memory>
    ensures params { IfOk result (λ _. params.new ≡ with_member params.old (record { name = name; value = value })) }
    ensures double { IfOk result (λ double. double ≡ is_some (value_of params.old name)) }
{
    match params.insert(name, value) {
        Ok(Inserted::Fresh) => Ok(false),
        Ok(Inserted::Double) => Ok(true),
        Err(fault) => Err(fault),
    }
}

/// A name, decoded and in lower case.
fn lower_text(alloc: Global, raw: &[u8]) -> Result<Text, Memory>
    ensures { IfOk result (λ text. text ≡ str_to_ascii_lowercase (form_text raw.now)) }
{
    let text = decode(alloc, raw)?;
    let mut owned = text.into_owned(alloc)?;
    owned.make_ascii_lowercase();
    Ok(Text::from_string(owned))
}

/// A name or a value, decoded.
fn form_text(alloc: Global, raw: &[u8]) -> Result<Text, Memory>
    ensures { IfOk result (λ text. text ≡ form_text raw.now) }
{
    let text = decode(alloc, raw)?;
    let owned = text.into_owned(alloc)?;
    Ok(Text::from_string(owned))
}

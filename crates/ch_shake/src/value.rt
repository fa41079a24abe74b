ghost use Rattle.std.specs.Prelude.{◌≡◌, length, filter};
ghost use Rattle.std.specs.Option.{option_copied};
ghost use Rattle.std.specs.Str.{str_eq_ignore_ascii_case};
ghost use Rattle.ch_requests.specs.Handshakes.{only_value};
ghost use Rattle.ch_shake.specs.Values.{first_value};

use ch_http::is_named;
use ch_requests::HeadField;

/// The value of the one field of this name, in any case.
pub(crate) fn only_value<'a>(fields: &'a [HeadField], name: &str) -> Option<&'a [u8]>
    ensures { option_copied result ≡ only_value name.now fields.now }
{
    if count_named(fields, name) != 1 {
        return None;
    }
    first_value(fields, name)
}

/// How many fields have the name.
fn count_named(fields: &[HeadField], name: &str) -> usize
    ensures { result ≡ length (filter (λ f. str_eq_ignore_ascii_case f.name name.now) fields.now) }
{
    fields.iter().filter(|field| is_named(field, name)).count()
}

/// The value of the first field of the name.
fn first_value<'a>(fields: &'a [HeadField], name: &str) -> Option<&'a [u8]>
    ensures { option_copied result ≡ first_value name.now fields.now }
{
    let field = fields.iter().find(|field| is_named(field, name))?;
    Some(field.value.as_slice())
}

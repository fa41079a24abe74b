//! Whether a request is authorized (Pusher Channels documentation, HTTP API, "Authentication").
ghost use Rattle.std.specs.Prelude.{◌≡◌, ◌/◌, IsTrue, bytes_eq, codes, nat_le};
ghost use Rattle.std.specs.Char.{is_ascii_digit};
ghost use Rattle.std.specs.List.{list_all};
ghost use Rattle.std.specs.Option.{option_copied};
ghost use Rattle.std.specs.Str.Parse.{digits_value};
ghost use Rattle.ch_requests.specs.Authorization.{is_authorized, is_value, is_near, is_timestamp, difference, is_digest, signature_of};
ghost use Rattle.ch_sig.specs.Parameters.{value_of};

use ch_base::Text;
use ch_config::Config;
use ch_requests::{MAX_DIFFERENCE, Request};
use ch_sig::{md5_hex, request_sig};

/// The version of the signatures.
const VERSION: &str = "1.0";

/// The most digits of a second.
const LONGEST_SECOND: usize = 15;

/// Whether the request is of the app, of this time, with its own body, and signed with the app's secret, and no name stands
/// twice in its query. `now` is in milliseconds.
pub(crate) fn is_authorized(config: &Config, request: &Request, now: u64) -> bool
    ensures { result ≡ is_authorized config.now request.now now }
{
    let params = &request.params;
    !request.doubled
        && is_value(params.get("auth_key"), config.key.as_str())
        && is_value(params.get("auth_version"), VERSION)
        && is_near(now, params.get("auth_timestamp"))
        && is_digest(request.body.as_slice(), params.get("body_md5"))
        && is_signed(config, request)
}

/// Whether the value is there, and is this one.
fn is_value(value: Option<&Text>, wanted: &str) -> bool
    ensures { result ≡ is_value (option_copied value.entry) wanted.now }
{
    match value {
        Some(value) => value.as_str() == wanted,
        None => false,
    }
}

/// Whether the value is a second near the moment, in milliseconds.
fn is_near(now: u64, value: Option<&Text>) -> bool
    ensures { result ≡ is_near now (option_copied value.entry) }
{
    match value {
        Some(value) => is_timestamp(value.as_str()) && is_near_second(now, value.as_str()),
        None => false,
    }
}

fn is_timestamp(value: &str) -> bool
    ensures { result ≡ is_timestamp value.now }
{
    !value.is_empty() && value.len() <= LONGEST_SECOND && is_digits(value)
}

fn is_digits(value: &str) -> bool
    ensures { result ≡ list_all is_ascii_digit value.now }
{
    value.bytes().all(|byte| byte.is_ascii_digit())
}

/// Whether the digits are a second near the moment.
fn is_near_second(now: u64, value: &str) -> bool
    requires { IsTrue (is_timestamp value.now) }
    ensures { result ≡ nat_le (difference (digits_value 10 value.now) (now / 1000)) MAX_DIFFERENCE }
{
    match value.parse::<u64>() {
        Ok(second) => second.abs_diff(now / 1000) <= MAX_DIFFERENCE,
        Err(_) => false,
    }
}

/// Whether the digest is that of the body; only an empty body needs none.
fn is_digest(body: &[u8], value: Option<&Text>) -> bool
    ensures { result ≡ is_digest body.now (option_copied value.entry) }
{
    match value {
        Some(value) => is_same(value.as_str().as_bytes(), &md5_hex(body)),
        None => body.is_empty(),
    }
}

/// Whether the request has its own signature.
fn is_signed(config: &Config, request: &Request) -> bool
    ensures { result ≡ is_value (value_of request.now.params (codes "auth_signature")) (signature_of config.now request.now) }
{
    let signature = request_sig(
        config.secret.as_str().as_bytes(),
        request.route.method(),
        request.path.as_str(),
        &request.params,
    );
    match request.params.get("auth_signature") {
        Some(value) => is_same(value.as_str().as_bytes(), &signature),
        None => false,
    }
}

/// Whether the bytes are the same.
///
/// All of them are looked at wherever they first differ; that the time doesn't depend on them isn't proved.
fn is_same(given: &[u8], wanted: &[u8]) -> bool
    ensures { result ≡ bytes_eq given.now wanted.now }
{
    if given.len() != wanted.len() {
        return false;
    }
    let mut same = true;
    'bytes: for (i, byte) in given.iter().enumerate() {
        same &= *byte == wanted[i];
    }
    same
}

//! The query of a signed request.
ghost use Rattle.std.specs.Prelude.{◌≡◌, IfOk, IsUtf8, string_bytes};
ghost use Rattle.ch_transcript.specs.Requests.{before_members, digest_member, unsigned_query, signed_query, method_word};
ghost use Rattle.ch_transcript.specs.declared.commands.Method.{Method};

use ch_base::Memory;
use ch_config::Config;
use ch_http::read_query;
use ch_sig::{md5_hex, request_sig};
use ch_transcript::Method;
use std::alloc::Global;

/// The query at the moment, before it is signed: the line's own, the key, the second, the version, and the digest of a body that
/// isn't empty.
pub fn unsigned_query(
    alloc: Global,
    config: &Config,
    at: u64,
    query: &str,
    body: &str,
) -> Result<String, Memory>
    ensures { IfOk result (λ t. string_bytes t ≡ unsigned_query config.now at query.now body.now) }
{
    let before = before_members(alloc, query)?;
    let before = before.as_str();
    let key = config.key.as_str();
    let second = at / 1000;
    let digest = digest_member(alloc, body)?;
    let digest = digest.as_str();
    let text = format!(in alloc;
        "{before}auth_key={key}&auth_timestamp={second}&auth_version=1.0{digest}"
    )?;
    Ok(text)
}

fn before_members(alloc: Global, query: &str) -> Result<String, Memory>
    ensures { IfOk result (λ t. string_bytes t ≡ before_members query.now) }
{
    if query.is_empty() {
        return Ok(String::new(alloc));
    }
    let text = format!(in alloc; "{query}&")?;
    Ok(text)
}

fn digest_member(alloc: Global, body: &str) -> Result<String, Memory>
    ensures { IfOk result (λ t. string_bytes t ≡ digest_member body.now) }
{
    if body.is_empty() {
        return Ok(String::new(alloc));
    }
    let digest = md5_hex(body.as_bytes());
    let digest = text_of(&digest);
    let text = format!(in alloc; "&body_md5={digest}")?;
    Ok(text)
}

/// The query with its signature (Pusher Channels documentation, HTTP API, "Authentication").
pub fn signed_query(
    alloc: Global,
    config: &Config,
    method: Method,
    path: &str,
    unsigned: &str,
) -> Result<String, Memory>
    ensures { IfOk result (λ t. string_bytes t ≡ signed_query config.now method path.now unsigned.now) }
{
    let query = read_query(alloc, unsigned)?;
    let secret = config.secret.as_str().as_bytes();
    let signature = request_sig(secret, method_word(method), path, &query.params);
    let signature = text_of(&signature);
    let text = format!(in alloc; "{unsigned}&auth_signature={signature}")?;
    Ok(text)
}

/// The word of a method.
pub fn method_word(method: Method) -> &'static str
    ensures { result.now ≡ method_word method }
{
    match method {
        Method::Get => "GET",
        Method::Post => "POST",
    }
}

/// The text of hex digits.
fn text_of(digits: &[u8]) -> &str
    requires { IsUtf8 digits.now }
    ensures { result.now ≡ digits.now }
{
    match str::from_utf8(digits) {
        Ok(text) => text,
        Err(_) => unreachable!(),
    }
}

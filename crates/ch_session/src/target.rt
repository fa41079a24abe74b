ghost use Rattle.std.specs.Prelude.{◌≡◌, IfOk, IsTrue, option_map, Option};
ghost use Rattle.std.specs.Char.{is_ascii_digit};
ghost use Rattle.std.specs.List.{list_all, list_any};
ghost use Rattle.ch_history.specs.ChannelName.{begins};
ghost use Rattle.ch_protocol.specs.Targets.{target_refusal, path_of, query_of, app_in, app_prefix, is_app_path, is_slash, version_in, version_refusal, form_text};

use ch_base::{
    INVALID_VERSION, Memory, NO_VERSION, Text, UNKNOWN_APP, UNKNOWN_PATH, UNSUPPORTED_VERSION,
};
use form_urlencoded::{decode, raw_pairs};
use std::alloc::Global;

/// What stands before the app's key in a target.
const APP_PREFIX: &[u8] = b"/app/";

/// The code that refuses the target, where the app has this key; none where it opens a connection.
pub(crate) fn target_refusal(alloc: Global, key: &str, target: &str) -> Result<Option<u16>, Memory>
    ensures { IfOk result (λ refusal. refusal ≡ target_refusal key.now target.now) }
{
    let path = path_of(target.as_bytes());
    if !is_app_path(path) {
        return Ok(Some(UNKNOWN_PATH));
    }
    if app_in(path) != key.as_bytes() {
        return Ok(Some(UNKNOWN_APP));
    }
    let version = version_in(alloc, query_of(target.as_bytes()))?;
    Ok(version_refusal(version.as_ref()))
}

/// What stands before the first question mark.
fn path_of(target: &[u8]) -> &[u8]
    ensures { result.now ≡ path_of target.now }
{
    match target.iter().position(|byte| *byte == b'?') {
        Some(at) => &target[..at],
        None => target,
    }
}

/// What stands behind the first question mark.
fn query_of(target: &[u8]) -> &[u8]
    ensures { result.now ≡ query_of target.now }
{
    match target.iter().position(|byte| *byte == b'?') {
        Some(at) => &target[at + 1..],
        None => &[],
    }
}

/// Whether one part without a slash stands behind the prefix.
fn is_app_path(path: &[u8]) -> bool
    ensures { result ≡ is_app_path path.now }
{
    if !path.starts_with(APP_PREFIX) {
        return false;
    }
    let app = app_in(path);
    !app.is_empty() && !has_slash(app)
}

/// What names the app.
fn app_in(path: &[u8]) -> &[u8]
    requires { IsTrue (begins app_prefix path.now) }
    ensures { result.now ≡ app_in path.now }
{
    &path[APP_PREFIX.len()..]
}

fn has_slash(part: &[u8]) -> bool
    ensures { result ≡ list_any is_slash part.now }
{
    part.iter().any(|byte| *byte == b'/')
}

/// The version of the protocol that the query asks for.
fn version_in(alloc: Global, query: &[u8]) -> Result<Option<Text>, Memory>
    ensures { IfOk result (λ version. version ≡ version_in query.now) }
{
    'members: for (name, value) in raw_pairs(query) {
        let name = form_text(alloc, name)?;
        if name.as_str() == "protocol" {
            let value = form_text(alloc, value)?;
            return Ok(Some(value));
        }
    }
    Ok(None)
}

/// A name or a value of a query, decoded (URL Standard, section 5).
fn form_text(alloc: Global, raw: &[u8]) -> Result<Text, Memory>
    ensures { IfOk result (λ text. text ≡ form_text raw.now) }
{
    let text = decode(alloc, raw)?;
    let owned = text.into_owned(alloc)?;
    Ok(Text::from_string(owned))
}

/// The code that refuses the version.
fn version_refusal(version: Option<&Text>) -> Option<u16>
    ensures { result ≡ version_refusal (option_map (λ v. v.now) version.entry) }
{
    let Some(version) = version else {
        return Some(NO_VERSION);
    };
    if version.is_empty() || !is_digits(version.as_str()) {
        Some(INVALID_VERSION)
    } else if version.as_str() == "7" {
        None
    } else {
        Some(UNSUPPORTED_VERSION)
    }
}

fn is_digits(text: &str) -> bool
    ensures { result ≡ list_all is_ascii_digit text.now }
{
    text.bytes().all(|byte| byte.is_ascii_digit())
}

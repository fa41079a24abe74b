//! The commands of the app's back end.
ghost use Rattle.std.specs.Prelude.{◌≡◌, IfOk};
ghost use Rattle.std.specs.Option.{option_copied};
ghost use Rattle.hex.specs.Hex.{decode_of};
ghost use Rattle.ch_transcript.specs.Commands.{first_part, more_parts, method_in, is_plain_byte, is_plain, query_in, or_empty, api_of, api_on, api_in, http_of};

use crate::parts::{first_part, more_parts};
use ch_base::{Items, Memory, Text};
use ch_transcript::{Command, Method};
use hex::FromHexError;
use std::alloc::Global;

/// A method, a path, a query, and a body or none.
pub fn read_api(alloc: Global, rest: &str) -> Result<Option<Command>, Memory>
    ensures { IfOk result (λ command. command ≡ api_in (method_in (first_part rest.now)) (more_parts rest.now)) }
{
    let method = method_in(first_part(rest));
    match more_parts(rest) {
        Some(more) => api_on(alloc, method, first_part(more), more_parts(more)),
        None => Ok(None),
    }
}

fn api_on(
    alloc: Global,
    method: Option<Method>,
    path: &str,
    more: Option<&str>,
) -> Result<Option<Command>, Memory>
    ensures { IfOk result (λ command. command ≡ api_on method path.now (option_copied more.entry)) }
{
    match more {
        Some(more) => api_of(alloc, method, path, first_part(more), more_parts(more)),
        None => Ok(None),
    }
}

fn api_of(
    alloc: Global,
    method: Option<Method>,
    path: &str,
    query: &str,
    body: Option<&str>,
) -> Result<Option<Command>, Memory>
    ensures { IfOk result (λ command. command ≡ api_of method path.now query.now (option_copied body.entry)) }
{
    let Some(method) = method else {
        return Ok(None);
    };
    if !is_plain(path) || !is_plain(query) {
        return Ok(None);
    }
    let path = Text::of(alloc, path)?;
    let query = Text::of(alloc, query_in(query))?;
    let body = Text::of(alloc, or_empty(body))?;
    Ok(Some(Command::Api {
        method,
        path,
        query,
        body,
    }))
}

fn method_in(word: &str) -> Option<Method>
    ensures { result ≡ method_in word.now }
{
    match word {
        "GET" => Some(Method::Get),
        "POST" => Some(Method::Post),
        _ => None,
    }
}

/// Whether it is ASCII without a blank, `#` and `?`.
fn is_plain(text: &str) -> bool
    ensures { result ≡ is_plain text.now }
{
    text.bytes().all(|byte| is_plain_byte(byte))
}

fn is_plain_byte(byte: u8) -> bool
    ensures { result ≡ is_plain_byte byte }
{
    byte.is_ascii() && !(byte == b' ' || byte == b'\t' || byte == b'#' || byte == b'?')
}

/// The query, which is empty for a dash.
fn query_in(query: &str) -> &str
    ensures { result.now ≡ query_in query.now }
{
    if query == "-" { "" } else { query }
}

fn or_empty(text: Option<&str>) -> &str
    ensures { result.now ≡ or_empty (option_copied text.entry) }
{
    match text {
        Some(text) => text,
        None => "",
    }
}

/// The bytes that are written in hex, in digits of either case.
pub fn read_http(alloc: Global, digits: &str) -> Result<Option<Command>, Memory>
    ensures { IfOk result (λ command. command ≡ http_of (decode_of digits.now)) }
{
    match hex::decode(alloc, digits) {
        Ok(bytes) => Ok(Some(Command::Http {
            bytes: Items::from_vec(bytes),
        })),
        Err(FromHexError::OutOfMemory) => Err(Memory),
        Err(_) => Ok(None),
    }
}

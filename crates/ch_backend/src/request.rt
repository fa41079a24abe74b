ghost use Rattle.std.specs.Prelude.{◌≡◌, IfOk, string_bytes};
ghost use Rattle.ch_transcript.specs.Requests.{api_bytes, request_bytes, length_line};
ghost use Rattle.ch_transcript.specs.declared.commands.Method.{Method};
ghost use Rattle.ch_backend.specs.Composing.{composed};

use crate::query::{method_word, signed_query, unsigned_query};
use ch_base::{Bytes, Items, Memory, Text};
use ch_config::Config;
use ch_transcript::Method;
use std::alloc::Global;

/// The bytes of a request of the app's back end at the moment, in milliseconds, rightly signed (Pusher Channels documentation,
/// HTTP API, "Authentication"). The query is empty where there is none.
pub fn api_request(
    alloc: Global,
    config: &Config,
    at: u64,
    method: Method,
    path: &Text,
    query: &Text,
    body: &Text,
) -> Result<Bytes, Memory>
    ensures { IfOk result (λ bytes. bytes ≡ api_bytes config.now at method path.now query.now body.now) }
{
    let path = path.as_str();
    let body = body.as_str();
    let unsigned = unsigned_query(alloc, config, at, query.as_str(), body)?;
    let query = signed_query(alloc, config, method, path, unsigned.as_str())?;
    let text = request_text(alloc, method, path, query.as_str(), body)?;
    Ok(Items::from_vec(text.into_bytes()))
}

/// The head and the body.
fn request_text(
    alloc: Global,
    method: Method,
    path: &str,
    query: &str,
    body: &str,
) -> Result<String, Memory>
    ensures { IfOk result (λ t. string_bytes t ≡ request_bytes method path.now query.now body.now) }
{
    let length = length_line(alloc, method, body)?;
    composed(
        alloc,
        method_word(method),
        path,
        query,
        length.as_str(),
        body,
    )
}

/// A request of this method, with the line that tells its length.
fn composed(
    alloc: Global,
    method: &str,
    path: &str,
    query: &str,
    length: &str,
    body: &str,
) -> Result<String, Memory>
    ensures { IfOk result (λ t. string_bytes t ≡ composed method.now path.now query.now length.now body.now) }
{
    let text = format!(in alloc;
        "{method} {path}?{query} HTTP/1.1\r\nHost: localhost\r\n{length}\r\n{body}"
    )?;
    Ok(text)
}

/// The field that tells the length of a POST's body.
fn length_line(alloc: Global, method: Method, body: &str) -> Result<String, Memory>
    ensures { IfOk result (λ t. string_bytes t ≡ length_line method body.now) }
{
    match method {
        Method::Get => Ok(String::new(alloc)),
        Method::Post => {
            let length = body.len();
            let text = format!(in alloc; "Content-Length: {length}\r\n")?;
            Ok(text)
        }
    }
}

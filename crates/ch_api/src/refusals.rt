//! Refusals of requests (RFC 9110, section 15).
ghost use Rattle.std.specs.Prelude.{◌≡◌, IfOk};
ghost use Rattle.ch_requests.specs.Plans.{refused};
ghost use Rattle.ch_requests.specs.Replies.{refusal, error_word, reply_text};

use crate::json_texts::{bytes_of, single_text};
use ch_base::Memory;
use ch_json::quoted;
use ch_requests::{Planned, Reply};
use std::alloc::Global;

/// The whole reply for want of memory, with status 503.
pub const REPLY_503: &[u8] =
    b"HTTP/1.1 503 Service Unavailable\r\nContent-Type: application/json\r\nContent-Length: 25\r\nConnection: close\r\n\r\n{\"error\":\"out of memory\"}";

/// The reply that refuses a request with this status: a JSON object whose `error` is a word for the status.
pub fn refusal(alloc: Global, status: u16) -> Result<Reply, Memory>
    ensures { IfOk result (λ reply. reply ≡ refusal status) }
{
    let word = quoted(alloc, error_word(status))?;
    let body = single_text(alloc, "error", word.as_str())?;
    Ok(Reply {
        status,
        body: bytes_of(body),
    })
}

/// A request is refused with this status.
pub(crate) fn refused(alloc: Global, status: u16) -> Result<Planned, Memory>
    ensures { IfOk result (λ p. p ≡ refused status) }
{
    let reply = refusal(alloc, status)?;
    Ok(Planned::Answer(reply))
}

fn error_word(status: u16) -> &'static str
    ensures { result.now ≡ error_word status }
{
    match status {
        400 => "bad request",
        401 => "unauthorized",
        404 => "not found",
        405 => "method not allowed",
        408 => "request timeout",
        411 => "length required",
        413 => "too large",
        426 => "version 13 required",
        431 => "header too large",
        503 => "out of memory",
        _ => "",
    }
}

/// `REPLY_503` is the bytes of the refusal with 503.
pub fn whole_refusal_holds()
    ensures { REPLY_503.now ≡ reply_text (refusal 503) }
{}

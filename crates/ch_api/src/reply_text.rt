//! The bytes of a reply (RFC 9112, section 4; RFC 9110, section 15).
ghost use Rattle.std.specs.Prelude.{◌≡◌, IfOk};
ghost use Rattle.ch_requests.specs.Replies.{reason_of, reply_text};

use ch_base::{Bytes, Memory};
use ch_requests::Reply;
use std::alloc::Global;

/// The bytes of a reply, after which the connection is closed.
pub fn reply_bytes(alloc: Global, reply: &Reply) -> Result<Bytes, Memory>
    ensures { IfOk result (λ bytes. bytes ≡ reply_text reply.now) }
{
    let status = reply.status;
    let reason = reason_of(status);
    let count = reply.body.len();
    let head = format!(in alloc;
        "HTTP/1.1 {status} {reason}\r\nContent-Type: application/json\r\nContent-Length: {count}\r\nConnection: close\r\n\r\n"
    )?;
    let mut bytes = head.into_bytes();
    bytes.extend_from_slice(reply.body.as_slice())?;
    Ok(Bytes::from_vec(bytes))
}

/// The reason phrase of a status (RFC 9110, section 15).
fn reason_of(status: u16) -> &'static str
    ensures { result.now ≡ reason_of status }
{
    match status {
        200 => "OK",
        400 => "Bad Request",
        401 => "Unauthorized",
        404 => "Not Found",
        405 => "Method Not Allowed",
        408 => "Request Timeout",
        411 => "Length Required",
        413 => "Payload Too Large",
        426 => "Upgrade Required",
        431 => "Request Header Fields Too Large",
        503 => "Service Unavailable",
        _ => "",
    }
}

ghost use Rattle.std.specs.Prelude.{◌≡◌, ◌++◌, ℕ, List, Ok, IfOk, OnErr, OnOk, codes, string_bytes};
ghost use Rattle.std.specs.Fmt.{decimal};
ghost use Rattle.ch_requests.specs.Handshakes.{handshake_key};
ghost use Rattle.ch_requests.specs.Replies.{refusal};
ghost use Rattle.ch_transcript.specs.Printing.{reply_line, shake_line, need_line};

use ch_api::refusal;
use ch_base::Memory;
use ch_requests::{Head, Reply};
use ch_shake::{HandshakeFault, handshake_key};
use std::alloc::Global;

/// Adds the line of a reply: `http <status> <body>`.
pub fn put_reply(alloc: Global, out: &mut Vec<u8>, reply: &Reply) -> Result<(), Memory>
    ensures ok { OnOk result (out.new.items ≡ out.old.items ++ reply_line reply.now) }
    ensures err { OnErr result (out.new.items ≡ out.old.items) }
{
    let line = line_of(alloc, reply)?;
    out.extend_from_slice(line.as_slice())?;
    Ok(())
}

fn line_of(alloc: Global, reply: &Reply) -> Result<Vec<u8>, Memory>
    ensures { IfOk result (λ line. line.items ≡ reply_line reply.now) }
{
    let mut line = front(alloc, reply.status)?.into_bytes();
    line.extend_from_slice(reply.body.as_slice())?;
    line.push(b'\n')?;
    Ok(line)
}

/// What stands before the body.
fn front(alloc: Global, status: u16) -> Result<String, Memory>
    ensures { IfOk result (λ front. string_bytes front ≡ codes "http " ++ decimal status ++ codes " ") }
{
    let front = format!(in alloc; "http {status} ")?;
    Ok(front)
}

/// Adds the line of the refusal with this status.
pub fn put_refusal(alloc: Global, out: &mut Vec<u8>, status: u16) -> Result<(), Memory>
    ensures ok { OnOk result (out.new.items ≡ out.old.items ++ reply_line (refusal status)) }
    ensures err { OnErr result (out.new.items ≡ out.old.items) }
{
    let reply = refusal(alloc, status)?;
    put_reply(alloc, out, &reply)
}

/// Adds the line of a handshake with this head: `http 101` where it is accepted, or the line of its refusal.
pub fn put_shake(alloc: Global, out: &mut Vec<u8>, head: &Head) -> Result<(), Memory>
    ensures ok { OnOk result (out.new.items ≡ out.old.items ++ shake_line (handshake_key head.now)) }
    ensures err { OnErr result (out.new.items ≡ out.old.items) }
{
    match handshake_key(alloc, head) {
        Ok(_) => put_switching(out),
        Err(HandshakeFault::Status(status)) => put_refusal(alloc, out, status),
        Err(HandshakeFault::Memory) => Err(Memory),
    }
}

/// Adds the line of a handshake that is accepted.
fn put_switching(out: &mut Vec<u8>) -> Result<(), Memory>
    ensures ok { (key : List ℕ) → OnOk result (out.new.items ≡ out.old.items ++ shake_line (Ok key)) }
    ensures err { OnErr result (out.new.items ≡ out.old.items) }
{
    out.extend_from_slice(b"http 101\n")?;
    Ok(())
}

/// Adds the line that tells that more bytes are wanted.
pub fn put_need(out: &mut Vec<u8>) -> Result<(), Memory>
    ensures ok { OnOk result (out.new.items ≡ out.old.items ++ need_line) }
    ensures err { OnErr result (out.new.items ≡ out.old.items) }
{
    out.extend_from_slice(b"http need\n")?;
    Ok(())
}

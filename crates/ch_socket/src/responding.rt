ghost use Rattle.std.specs.Prelude.{◌≡◌, ◌≢◌, ◌++◌, false, IfOk, OnOk, Some};
ghost use Rattle.ch_base.specs.declared.frame.Frame.TheVariants.{Error};
ghost use Rattle.ch_base.specs.declared.error_codes.TheConstants.{OUT_OF_MEMORY, RECONNECT};
ghost use Rattle.ch_socket.specs.Responses.{TellsOf, reply_lines, ending_lines};

use crate::printing::{put_end, put_frame};
use ch_base::{Frame, Memory, OUT_OF_MEMORY, RECONNECT};
use ch_dispatch::Response;
use std::alloc::Global;

/// Adds the lines of a response, and answers whether the connection goes on. There is none for want of
/// memory.
pub(crate) fn put_response(
    alloc: Global,
    out: &mut Vec<u8>,
    number: u64,
    response: Response,
) -> Result<bool, Memory>
    ensures { IfOk result (TellsOf number response out.old.items out.new.items) }
{
    let Response { reply, end } = response;
    put_reply(alloc, out, number, reply)?;
    put_ending(alloc, out, number, end)?;
    Ok(end.is_none())
}

fn put_reply(
    alloc: Global,
    out: &mut Vec<u8>,
    number: u64,
    reply: Option<Frame>,
) -> Result<(), Memory>
    ensures memory { OnOk result (reply ≢ Some (Error OUT_OF_MEMORY)) }
    ensures text { OnOk result (out.new.items ≡ out.old.items ++ reply_lines number reply) }
{
    match reply {
        None => Ok(()),
        Some(frame) => put_heard(alloc, out, number, frame),
    }
}

fn put_heard(alloc: Global, out: &mut Vec<u8>, number: u64, frame: Frame) -> Result<(), Memory>
    ensures memory { OnOk result (frame ≢ Error OUT_OF_MEMORY) }
    ensures text { OnOk result (out.new.items ≡ out.old.items ++ reply_lines number (Some frame)) }
{
    if tells_no_memory(&frame) {
        return Err(Memory);
    }
    put_frame(alloc, out, number, &frame)
}

/// Whether a frame says that there was no memory.
fn tells_no_memory(frame: &Frame) -> bool
    ensures { result ≡ false → frame.now ≢ Error OUT_OF_MEMORY }
{
    match frame {
        Frame::Error { code } => *code == OUT_OF_MEMORY,
        _ => false,
    }
}

fn put_ending(alloc: Global, out: &mut Vec<u8>, number: u64, end: Option<u16>) -> Result<(), Memory>
    ensures memory { OnOk result (end ≢ Some RECONNECT) }
    ensures text { OnOk result (out.new.items ≡ out.old.items ++ ending_lines number end) }
{
    match end {
        None => Ok(()),
        Some(RECONNECT) => Err(Memory),
        Some(code) => put_end(alloc, out, number, code),
    }
}

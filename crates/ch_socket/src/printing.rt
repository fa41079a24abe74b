ghost use Rattle.std.specs.Prelude.{◌≡◌, ◌++◌, IfOk, OnErr, OnOk, string_bytes, codes};
ghost use Rattle.std.specs.Fmt.{decimal};
ghost use Rattle.ch_base.specs.declared.frame.Frame.{Frame};
ghost use Rattle.ch_transcript.specs.Printing.{socket_line, frame_line, close_line, end_lines};

use ch_base::{ChanAnswer, Frame, Memory, Printed, Text};
use ch_frames::print;
use ch_transcript::START_SECOND;
use std::alloc::Global;

/// Adds a text to the output. Where there is no memory the output stays as it is, here and in each call below.
pub fn put(out: &mut Vec<u8>, text: &str) -> Result<(), Memory>
    ensures ok { OnOk result (out.new.items ≡ out.old.items ++ text.now) }
    ensures err { OnErr result (out.new.items ≡ out.old.items) }
{
    out.extend_from_slice(text.as_bytes())?;
    Ok(())
}

/// Adds a socket's line.
fn put_line(alloc: Global, out: &mut Vec<u8>, number: u64, text: &str) -> Result<(), Memory>
    ensures ok { OnOk result (out.new.items ≡ out.old.items ++ socket_line number text.now) }
    ensures err { OnErr result (out.new.items ≡ out.old.items) }
{
    let line = line_of(alloc, number, text)?;
    put(out, line.as_str())
}

fn line_of(alloc: Global, number: u64, text: &str) -> Result<String, Memory>
    ensures { IfOk result (λ line. string_bytes line ≡ socket_line number text.now) }
{
    let line = format!(in alloc; "{number} {text}\n")?;
    Ok(line)
}

/// Adds the line of a frame that a socket is sent.
pub fn put_frame(alloc: Global, out: &mut Vec<u8>, number: u64, frame: &Frame) -> Result<(), Memory>
    ensures ok { OnOk result (out.new.items ≡ out.old.items ++ frame_line number frame.now) }
    ensures err { OnErr result (out.new.items ≡ out.old.items) }
{
    let text = print(alloc, frame, START_SECOND)?;
    put_line(alloc, out, number, text.as_str())
}

/// Adds the line of a frame that a socket is sent, by its text.
pub fn put_printed(
    alloc: Global,
    out: &mut Vec<u8>,
    number: u64,
    printed: &Printed,
) -> Result<(), Memory>
    ensures ok { OnOk result (out.new.items ≡ out.old.items ++ frame_line number printed.now) }
    ensures err { OnErr result (out.new.items ≡ out.old.items) }
{
    put_line(alloc, out, number, printed.text().as_str())
}

/// Adds the line of an error that a socket is sent.
pub fn put_error(alloc: Global, out: &mut Vec<u8>, number: u64, code: u16) -> Result<(), Memory>
    ensures ok { OnOk result (out.new.items ≡ out.old.items ++ frame_line number (Frame.Error code)) }
    ensures err { OnErr result (out.new.items ≡ out.old.items) }
{
    put_frame(alloc, out, number, &Frame::Error { code })
}

/// Adds the lines that end a connection with a code.
pub fn put_end(alloc: Global, out: &mut Vec<u8>, number: u64, code: u16) -> Result<(), Memory>
    ensures ok { OnOk result (out.new.items ≡ out.old.items ++ end_lines number code) }
    ensures err { OnErr result (out.new.items ≡ out.old.items) }
{
    let mut lines = Vec::new(alloc);
    put_error(alloc, &mut lines, number, code)?;
    put_close(alloc, &mut lines, number, code)?;
    out.extend_from_slice(lines.as_slice())?;
    Ok(())
}

fn put_close(alloc: Global, out: &mut Vec<u8>, number: u64, code: u16) -> Result<(), Memory>
    ensures { OnOk result (out.new.items ≡ out.old.items ++ close_line number code) }
{
    let text = close_text(alloc, code)?;
    put_line(alloc, out, number, text.as_str())
}

fn close_text(alloc: Global, code: u16) -> Result<String, Memory>
    ensures { IfOk result (λ text. string_bytes text ≡ codes "close " ++ decimal code) }
{
    let text = format!(in alloc; "close {code}")?;
    Ok(text)
}

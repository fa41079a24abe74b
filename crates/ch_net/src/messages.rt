ghost use Rattle.std.specs.Prelude.{◌≡◌, ◌++◌, IfOk, map};
ghost use Rattle.ch_net.specs.Lines.{lines_in, message_of, messages_in};

use crate::wire::Message;
use ch_base::{Memory, Text};
use std::alloc::Global;
use std::str;

/// The messages that stand behind a handshake's head, in the bytes that were read with it and in those
/// that weren't read yet.
#[tactic(auto, using(crate::proofs::Lines::messages_are))]
pub(crate) fn messages_behind(
    alloc: Global,
    seen: &[u8],
    rest: &[u8],
) -> Result<Vec<Message>, Memory>
    ensures { IfOk result (λ messages. messages.items ≡ messages_in (seen.now ++ rest.now)) }
{
    let mut bytes = seen.to_vec(alloc)?;
    bytes.extend_from_slice(rest)?;
    let lines = lines(alloc, bytes.as_slice())?;
    let messages = messages(alloc, lines.as_slice())?;
    Ok(messages)
}

/// The lines that hold a message.
fn lines(alloc: Global, bytes: &[u8]) -> Result<Vec<&[u8]>, Memory>
    ensures { IfOk result (λ lines. map (λ line. line.now) lines.items ≡ lines_in bytes.now) }
{
    let lines = bytes
        .split(|byte| *byte == b'\n')
        .filter(|line| !line.is_empty())
        .collect(alloc)?;
    Ok(lines)
}

/// A message for each line.
fn messages(alloc: Global, lines: &[&[u8]]) -> Result<Vec<Message>, Memory>
    ensures { IfOk result (λ messages. messages.items ≡ map (λ line. message_of line.now) lines.now) }
{
    let mut messages = Vec::new(alloc);
    for line in lines {
        messages.push(message(alloc, line)?)?;
    }
    Ok(messages)
}

/// The message of one line.
fn message(alloc: Global, line: &[u8]) -> Result<Message, Memory>
    ensures { IfOk result (λ message. message ≡ message_of line.now) }
{
    match str::from_utf8(line) {
        Ok(text) => Ok(Message::Text(Text::of(alloc, text)?)),
        Err(_) => Ok(Message::Binary),
    }
}

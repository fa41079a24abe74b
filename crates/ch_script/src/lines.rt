ghost use Rattle.std.specs.Prelude.{◌≡◌, IfOk};
ghost use Rattle.std.specs.Option.{option_copied};
ghost use Rattle.ch_transcript.specs.Commands.{first_part, more_parts, number_in, command_after, timed, line_in, line_of, is_skipped, IsLine};

use crate::commands::read_command;
use crate::parts::{first_part, more_parts, read_number};
use ch_base::Memory;
use ch_transcript::{Command, Line};
use std::alloc::Global;

/// What a line says, which is given without its line end.
pub fn read_line(alloc: Global, line: &[u8]) -> Result<Line, Memory>
    ensures said { IfOk result (λ said. said ≡ line_of line.now) }
    ensures good { IfOk result IsLine }
{
    match str::from_utf8(line) {
        Ok(text) => read_text(alloc, text),
        Err(_) => Ok(Line::Bad),
    }
}

fn read_text(alloc: Global, text: &str) -> Result<Line, Memory>
    ensures { IfOk result (λ said. said ≡ line_in text.now) }
{
    if is_skipped(text.as_bytes()) {
        return Ok(Line::Skipped);
    }
    read_timed(alloc, first_part(text), more_parts(text))
}

/// Whether the line is empty or a comment.
fn is_skipped(line: &[u8]) -> bool
    ensures { result ≡ is_skipped line.now }
{
    match line {
        [] => true,
        [first, ..] => *first == b'#',
    }
}

fn read_timed(alloc: Global, at: &str, rest: Option<&str>) -> Result<Line, Memory>
    ensures { IfOk result (λ said. said ≡ timed (number_in at.now) (command_after (option_copied rest.entry))) }
{
    let Some(at) = read_number(alloc, at)? else {
        return Ok(Line::Bad);
    };
    match read_after(alloc, rest)? {
        Some(command) => Ok(Line::Timed { at, command }),
        None => Ok(Line::Bad),
    }
}

fn read_after(alloc: Global, rest: Option<&str>) -> Result<Option<Command>, Memory>
    ensures { IfOk result (λ command. command ≡ command_after (option_copied rest.entry)) }
{
    match rest {
        Some(text) => read_command(alloc, first_part(text), more_parts(text)),
        None => Ok(None),
    }
}

ghost use Rattle.std.specs.Prelude.{◌≡◌, IfOk, string_bytes};
ghost use Rattle.ch_transcript.specs.Printing.{error_line, long_line};

use ch_base::Memory;
use std::alloc::Global;

/// The line that names a line which is no transcript line.
pub fn error_line(alloc: Global, number: u64) -> Result<String, Memory>
    ensures { IfOk result (λ line. string_bytes line ≡ error_line number) }
{
    let line = format!(in alloc; "error line {number}\n")?;
    Ok(line)
}

/// The line that names a line which is too long.
pub fn long_line(alloc: Global, number: u64) -> Result<String, Memory>
    ensures { IfOk result (λ line. string_bytes line ≡ long_line number) }
{
    let line = format!(in alloc; "long line {number}\n")?;
    Ok(line)
}

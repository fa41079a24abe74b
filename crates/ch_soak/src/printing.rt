//! What a soak prints.
ghost use Rattle.std.specs.Prelude.{◌≡◌, IfOk, IfSome, string_bytes};
ghost use Rattle.ch_soak.specs.SoakText as spec;

use crate::summing::Summing;
use crate::words::Soak;
use ch_base::Memory;
use std::alloc::Global;

/// The line for words that ask for no soak.
pub(crate) fn usage_text() -> &'static str
    ensures { result.now ≡ spec.usage_line }
{
    "usage: channelsd soak <seed> <lines>\n"
}

/// The line that sums up the output of a soak.
pub(crate) fn summary(alloc: Global, soak: &Soak, output: Summing) -> Result<String, Memory>
    ensures { IfOk result (λ line. IfSome output.held (λ bytes. string_bytes line ≡ spec.summary soak.now bytes)) }
{
    let bytes = output.len();
    let hash = hex::encode(alloc, output.finish())?;
    summary_line(alloc, soak, bytes, hash.as_str())
}

/// The line for so many bytes of output, with this text of their hash.
fn summary_line(alloc: Global, soak: &Soak, bytes: usize, hash: &str) -> Result<String, Memory>
    ensures { IfOk result (λ line. string_bytes line ≡ spec.summary_line soak.now bytes hash.now) }
{
    let seed = soak.seed;
    let lines = soak.lines;
    let line = format!(in alloc; "soak {seed} lines {lines} bytes {bytes} sha256 {hash}\n")?;
    Ok(line)
}

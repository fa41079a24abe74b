ghost use Rattle.std.specs.Prelude.{◌≡◌, ◌≤◌};
ghost use Rattle.std.specs.List.{count_by};
ghost use Rattle.ch_requests.specs.Heads.{first_bytes, first_lines, is_full, is_line_end};

use ch_requests::{LONGEST_HEAD, MOST_LINES};

/// The bytes among which a head is looked for.
pub(crate) fn first_bytes(bytes: &[u8]) -> &[u8]
    ensures first { result.now ≡ first_bytes bytes.now }
    ensures lines { count_by is_line_end result.now ≤ MOST_LINES }
{
    first_lines(&bytes[..LONGEST_HEAD.min(bytes.len())])
}

/// The bytes up to the last line end that a head may have, that one among them.
fn first_lines(bytes: &[u8]) -> &[u8]
    ensures first { result.now ≡ first_lines MOST_LINES bytes.now }
    ensures lines { count_by is_line_end result.now ≤ MOST_LINES }
{
    let mut lines = 0;
    'bytes: for (at, byte) in bytes.iter().enumerate() {
        if *byte == b'\n' {
            lines += 1;
            if lines == MOST_LINES {
                return &bytes[..at + 1];
            }
        }
    }
    bytes
}

/// Whether no more of the first bytes can come.
pub(crate) fn is_full(first: &[u8]) -> bool
    ensures { result ≡ is_full first.now }
{
    first.len() >= LONGEST_HEAD || count_lines(first) >= MOST_LINES
}

fn count_lines(bytes: &[u8]) -> usize
    ensures { result ≡ count_by is_line_end bytes.now }
{
    bytes.iter().filter(|byte| **byte == b'\n').count()
}

ghost use Rattle.std.specs.Prelude.{◌≡◌, ◌<◌, ◌≤◌, ◌-◌, IfSome, length, option_map};
ghost use Rattle.std.specs.List.{position_from};
ghost use Rattle.ch_post.specs.StatusLines.{first_line, has_version, is_line_feed, status_in, three_digits};

/// What stands before the first line feed.
pub(crate) fn first_line(bytes: &[u8]) -> Option<&[u8]>
    ensures { option_map (λ l. l.now) result ≡ first_line bytes.now }
{
    match line_end(bytes) {
        Some(at) => Some(&bytes[..at]),
        None => None,
    }
}

/// The place of the first line feed.
fn line_end(bytes: &[u8]) -> Option<usize>
    ensures place { result ≡ position_from is_line_feed 0 bytes.now }
    ensures inside { IfSome result (λ at. at < length bytes.now) }
{
    bytes.iter().position(|byte| *byte == b'\n')
}

/// The status of a status line (RFC 9112, section 4): the three digits behind `HTTP/1.1 ` or `HTTP/1.0 `.
pub(crate) fn status_in(line: &[u8]) -> Option<u16>
    ensures { result ≡ status_in line.now }
{
    if has_version(line) {
        three_digits(&line[9..])
    } else {
        None
    }
}

fn has_version(line: &[u8]) -> bool
    ensures { result ≡ has_version line.now }
{
    line.starts_with(b"HTTP/1.1 ") || line.starts_with(b"HTTP/1.0 ")
}

/// The number that the first three digits spell.
fn three_digits(bytes: &[u8]) -> Option<u16>
    ensures { result ≡ three_digits bytes.now }
{
    match bytes {
        [a, b, c, ..] if a.is_ascii_digit() && b.is_ascii_digit() && c.is_ascii_digit() => {
            Some(digit(*a) * 100 + (digit(*b) * 10 + digit(*c)))
        }
        _ => None,
    }
}

/// The number that a digit spells.
fn digit(byte: u8) -> u16
    requires { (48 ≤ byte) × (byte ≤ 57) }
    ensures { result ≡ byte - 48 }
{
    u16::from(byte - b'0')
}

ghost use Rattle.std.specs.Prelude.{◌≡◌, IsTrue};
ghost use Rattle.std.specs.Char.{is_ascii_digit};
ghost use Rattle.std.specs.List.{list_all};
ghost use Rattle.ch_names.specs.SocketIds.{is_part, written_number, socket_id_of};

/// What a text says as a socket id.
#[derive(Clone, Copy, Debug, PartialEq, Eq)]
pub enum SocketId {
    /// It isn't two parts of 1 to 19 digits with a point between them.
    Bad,
    /// It is the id of no socket of this server.
    Stranger,
    /// It is the id of the socket with this number.
    Here(u64),
}

/// The number of the socket whose id this is, on a server that started at this second. A socket's id
/// is `<start>.<number>`, both in decimal and without leading zeros.
pub fn socket_number(id: &str, start: u64) -> SocketId
    ensures { result ≡ socket_id_of start id.now }
{
    let Some((first, second)) = id.split_once('.') else {
        return SocketId::Bad;
    };
    if !is_part(first) || !is_part(second) {
        return SocketId::Bad;
    }
    match (written_number(first), written_number(second)) {
        (Some(first), Some(number)) if first == start => SocketId::Here(number),
        _ => SocketId::Stranger,
    }
}

/// Whether it is 1 to 19 digits.
fn is_part(part: &str) -> bool
    ensures { result ≡ is_part part.now }
{
    !part.is_empty() && part.len() <= 19 && is_digits(part)
}

fn is_digits(text: &str) -> bool
    ensures { result ≡ list_all is_ascii_digit text.now }
{
    text.bytes().all(|byte| byte.is_ascii_digit())
}

/// The number, where it is written without leading zeros.
fn written_number(part: &str) -> Option<u64>
    requires { IsTrue (is_part part.now) }
    ensures { result ≡ written_number part.now }
{
    if part.len() > 1 && part.as_bytes()[0] == b'0' {
        return None;
    }
    part.parse::<u64>().ok()
}

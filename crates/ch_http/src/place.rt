ghost use Rattle.std.specs.Prelude.{◌≡◌, ◌↔◌, IsTrue};
ghost use Rattle.httparse.specs.Grammar.{EndsInTarget};
ghost use Rattle.ch_http.specs.Places.{place_after, place_of};

use httparse::{is_method_token, is_uri_token};

/// Where bytes end in a request line (RFC 9112, section 3), as far as its target.
#[derive(Clone, Copy, Debug, PartialEq, Eq)]
pub(crate) enum Place {
    /// At the start of a line, before the method.
    Start,
    /// Behind the carriage return of an empty line before the method.
    AfterReturn,
    Method,
    Target,
    /// Elsewhere: behind the target, or where no request line goes.
    Elsewhere,
}

/// Whether the bytes end inside a target. As long as they do, its text isn't judged.
pub(crate) fn ends_in_target(bytes: &[u8]) -> bool
    ensures { IsTrue result ↔ EndsInTarget bytes.now }
{
    match place_of(bytes) {
        Place::Target => true,
        _ => false,
    }
}

fn place_of(bytes: &[u8]) -> Place
    ensures { result ≡ place_of Place.Start bytes.now }
{
    let mut place = Place::Start;
    'bytes: for byte in bytes {
        place = place_after(place, *byte);
    }
    place
}

fn place_after(place: Place, byte: u8) -> Place
    ensures { result ≡ place_after place byte }
{
    match place {
        Place::Start => after_start(byte),
        Place::AfterReturn if byte == b'\n' => Place::Start,
        Place::Method if byte == b' ' => Place::Target,
        Place::Method if is_method_token(byte) => Place::Method,
        Place::Target if is_uri_token(byte) => Place::Target,
        _ => Place::Elsewhere,
    }
}

fn after_start(byte: u8) -> Place
    ensures { result ≡ place_after Place.Start byte }
{
    if byte == b'\n' {
        Place::Start
    } else if byte == b'\r' {
        Place::AfterReturn
    } else if is_method_token(byte) {
        Place::Method
    } else {
        Place::Elsewhere
    }
}

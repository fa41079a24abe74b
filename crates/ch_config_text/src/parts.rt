ghost use Rattle.std.specs.Prelude.{◌≡◌, ◌<◌};
ghost use Rattle.ch_config_text.specs.Parts.{before, after, from_first};

/// The text before the first such character, or all of it where there is none. The character is ASCII.
pub fn before(text: &str, mark: char) -> &str
    requires { mark < 128 }
    ensures { result.now ≡ before mark text.now }
{
    match text.split_once(mark) {
        Some((front, _)) => front,
        None => text,
    }
}

/// The text behind the first such character, or none of it where there is none. The character is ASCII.
pub fn after(text: &str, mark: char) -> &str
    requires { mark < 128 }
    ensures { result.now ≡ after mark text.now }
{
    match text.split_once(mark) {
        Some((_, rest)) => rest,
        None => "",
    }
}

/// The text from the first such character on, or none of it where there is none. The character is ASCII.
pub fn from_first(text: &str, mark: char) -> &str
    requires { mark < 128 }
    ensures { result.now ≡ from_first mark text.now }
{
    match text.find(mark) {
        Some(at) => &text[at..],
        None => "",
    }
}

ghost use Rattle.std.specs.Prelude.{◌≡◌, ◌+◌, ◌<◌, nat_lt, ℕ, List, [], length, Some, true, false};
ghost use Rattle.ch_post.specs.StatusLines.{first_line};
ghost use Rattle.ch_post.specs.Talks.{IsEnough, IsPatient, Reads, Writes};
ghost use Rattle.ch_post.specs.declared.seen.TheConstants.{MOST_SEEN};
ghost use Rattle.ch_post.specs.declared.talk.TheConstants.{MOST_STALLS};

use crate::seen::Seen;
use crate::status_line::first_line;
use ch_net::{Link, LinkGot, LinkWrote, link_calls_chain};

/// How often a link may ask for patience in one post.
pub(crate) const MOST_STALLS: u64 = 1_000;

/// How many bytes are read at once.
const READ_SIZE: usize = 256;

/// A request and its response over one new link. Once the link failed, ended or asked for patience too often, nothing more
/// is said.
#[derive(Drop)]
pub(crate) struct Talk<L> {
    link: L,
    stalls: u64,
    goes_on: bool,
}

impl<L: Link> Talk<L> {
    pub fn new(link: L) -> Talk<L>
        ensures link { result.link ≡ link }
        ensures goes_on { result.goes_on ≡ true }
        ensures patient { IsPatient (L.told link) true result.stalls }
    {
        Talk {
            link,
            stalls: 0,
            goes_on: true,
        }
    }

    pub fn into_link(self) -> L
        ensures { result ≡ self.link }
    {
        self.link
    }

    /// Writes these bytes.
    pub fn write(&mut self, bytes: &[u8])
        requires { IsPatient (L.told self.old.link) self.old.goes_on self.old.stalls }
        ensures patient { IsPatient (L.told self.new.link) self.new.goes_on self.new.stalls }
        ensures writes { Writes bytes.now (record { link = L.told self.old.link; goes_on = self.old.goes_on })
            (record { link = L.told self.new.link; goes_on = self.new.goes_on }) }
    {
        link_calls_chain();
        let mut left = bytes;
        while self.goes_on && !left.is_empty() {
            match self.link.write(left) {
                LinkWrote::Wrote(count) => left = &left[count..],
                LinkWrote::NotYet => self.goes_on = count_stall(&mut self.stalls),
                LinkWrote::Failed => self.goes_on = false,
            }
        }
    }

    /// Reads until a line end has come, or as many bytes as are kept.
    pub fn read_line(&mut self, seen: &mut Seen)
        requires patient { IsPatient (L.told self.old.link) self.old.goes_on self.old.stalls }
        requires seen { seen.old ≡ [] }
        ensures { Reads seen.new (record { link = L.told self.old.link; goes_on = self.old.goes_on })
            (record { link = L.told self.new.link; goes_on = self.new.goes_on }) }
    {
        link_calls_chain();
        while self.goes_on && wants_more(seen) {
            let mut buffer = [0; READ_SIZE];
            let room = seen.room().min(READ_SIZE);
            match self.link.read(&mut buffer[..room]) {
                LinkGot::Read(count) => seen.add(&buffer[..count]),
                LinkGot::NotYet => self.goes_on = count_stall(&mut self.stalls),
                LinkGot::Ended => self.goes_on = false,
                LinkGot::Failed => self.goes_on = false,
            }
        }
    }
}

/// Counts one stall more, and answers whether there may be another.
fn count_stall(stalls: &mut u64) -> bool
    requires { stalls.old < MOST_STALLS }
    ensures counted { stalls.new ≡ stalls.old + 1 }
    ensures more { result ≡ nat_lt stalls.new MOST_STALLS }
{
    *stalls += 1;
    *stalls < MOST_STALLS
}

/// Whether there is room for more bytes, and no line end yet.
fn wants_more(seen: &Seen) -> bool
    ensures room { result ≡ true → length seen.now < MOST_SEEN }
    ensures enough { result ≡ false → IsEnough MOST_SEEN seen.now }
{
    seen.room() > 0 && !has_line(seen.as_slice())
}

/// Whether a line end has come.
fn has_line(seen: &[u8]) -> bool
    ensures { result ≡ true → (line : List ℕ) × (first_line seen.now ≡ Some line) }
{
    match first_line(seen) {
        Some(_) => true,
        None => false,
    }
}

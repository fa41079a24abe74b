ghost use Rattle.std.specs.Prelude.{◌≡◌, ◌≤◌, ◌-◌, ◌++◌, [], length, take};
ghost use Rattle.ch_post.specs.declared.seen.TheConstants.{MOST_SEEN};
ghost use Rattle.ch_post.specs.StatusLines.{first_line};

use crate::status_line::first_line;
use std::marker::Model;

/// The most bytes of a response that are kept.
pub(crate) const MOST_SEEN: usize = 1_024;

/// The first bytes of a response, at most `MOST_SEEN`. Contracts see these bytes.
#[derive(Drop)]
pub(crate) struct Seen {
    bytes: [u8; MOST_SEEN],
    count: usize,
}

impl Model for Seen {
    ghost use Rattle.std.specs.Prelude.{List, ℕ, ◌≤◌, take};
    ghost use Rattle.ch_post.specs.declared.seen.TheConstants.{MOST_SEEN};

    ghost Value = { List ℕ };

    ghost view = { λ s. take s.count s.bytes };

    ghost invariant = { λ s. s.count ≤ MOST_SEEN };
}

impl Seen {
    /// No byte yet.
    pub fn new() -> Seen
        ensures { result ≡ [] }
    {
        Seen {
            bytes: [0; MOST_SEEN],
            count: 0,
        }
    }

    pub fn as_slice(&self) -> &[u8]
        ensures { result.now ≡ self.now }
    {
        &self.bytes[..self.count]
    }

    /// How many more bytes there is room for.
    pub fn room(&self) -> usize
        ensures room { result ≡ MOST_SEEN - length self.now }
        ensures few { length self.now ≤ MOST_SEEN }
    {
        self.bytes.len() - self.count
    }

    /// Keeps these bytes too.
    pub fn add(&mut self, more: &[u8])
        requires { length more.now ≤ MOST_SEEN - length self.old }
        ensures { self.new ≡ self.old ++ more.now }
    {
        self.bytes[self.count..self.count + more.len()].copy_from_slice(more);
        self.count += more.len();
    }

    /// Gives up all bytes.
    pub fn clear(&mut self)
        ensures { self.new ≡ [] }
    {
        self.count = 0;
    }
}

ghost use Rattle.std.specs.Prelude.{◌≡◌, ◌==◌, false, [], ◌∷◌, ◌++◌, find, length, map, slice_get, option_copied, OnOk, OnErr, IfOk};
ghost use Rattle.std.specs.Ordering.{nat_cmp};
ghost use Rattle.std.specs.Cmp.Lexicographic.{slice_cmp};
ghost use Rattle.std.specs.Map.{keys_of, values_of};
ghost use Rattle.ch_index.specs.Nest.{is_past};
ghost use Rattle.ch_index.specs.Rows.{has_row, named, names, names_in, without_all, without_one};
ghost use Rattle.ch_index.specs.Numbered.{AreBelow};

use crate::marks::Marks;
use crate::numbered::Numbered;
use crate::row::Row;
use crate::walk::Walk;
use ch_base::{Memory, Text};
use std::alloc::Global;
use std::marker::Model;

/// Rows in the order in which they came, found by their name and by their socket. No socket has a name
/// twice. Only `add` takes memory.
#[derive(Drop)]
pub struct Index<R: Row + Drop> {
    numbered: Numbered<R>,
}

impl<R: Row + Drop> Model for Index<R> {
    ghost use Rattle.std.specs.Prelude.{List};
    ghost use Rattle.std.specs.Map.{values_of};

    ghost Value = { List R };

    ghost view = { λ i. values_of i.numbered };
}

impl<R: Row + Drop> Index<R> {
    /// No rows. It takes no memory.
    pub fn new(alloc: Global) -> Index<R>
        ensures { result ≡ [] }
    {
        Index {
            numbered: Numbered::new(alloc),
        }
    }

    /// Adds the row at the end. Nothing changes after want of memory.
    pub fn add(&mut self, row: R) -> Result<(), Memory>
        requires { has_row R.name R.socket self.old (R.socket row) (R.name row) ≡ false }
        ensures ok { OnOk result (self.new ≡ self.old ++ row ∷ []) }
        ensures err { OnErr result (self.new ≡ self.old) }
    {
        let number = match next_number(&mut self.numbered) {
            Ok(number) => number,
            Err(memory) => return Err(memory),
        };
        self.numbered.add(number, row)
    }

    /// Takes the socket's row with the name out, and answers whether there was one. It takes no memory.
    pub fn leave(&mut self, socket: u64, name: &Text) -> bool
        ensures answer { result ≡ has_row R.name R.socket self.old socket name.now }
        ensures rows { self.new ≡ without_one R.name R.socket self.old socket name.now }
    {
        self.numbered.leave(socket, name)
    }

    /// Takes the rows of the socket out, and answers how many there were. It takes no memory.
    pub fn lost(&mut self, socket: u64) -> u64
        ensures answer { result ≡ length (names_in R.name R.socket self.old socket) }
        ensures rows { self.new ≡ without_all R.name R.socket self.old socket }
    {
        self.numbered.lost(socket)
    }

    /// How many rows there are.
    pub fn len(&self) -> u64
        ensures { result ≡ length self.now }
    {
        self.numbered.len()
    }

    /// Whether the socket has a row with the name.
    pub fn has(&self, socket: u64, name: &Text) -> bool
        ensures { result ≡ has_row R.name R.socket self.now socket name.now }
    {
        self.numbered.number(socket, name).is_some()
    }

    /// The socket's row with the name.
    pub fn find(&self, socket: u64, name: &Text) -> Option<&R>
        ensures { option_copied result ≡ find (λ r. R.socket r == socket) (named R.name self.now name.now) }
    {
        self.numbered.find(socket, name)
    }

    /// How many rows have the name.
    pub fn count(&self, name: &Text) -> u64
        ensures { result ≡ length (named R.name self.now name.now) }
    {
        self.numbered.count(name)
    }

    /// The row with this place among those with the name, the oldest first, counted from 0.
    pub fn nth(&self, name: &Text, at: u64) -> Option<&R>
        ensures { option_copied result ≡ slice_get (named R.name self.now name.now) at }
    {
        self.numbered.nth(name, at)
    }

    /// The rows with the name, the oldest first.
    pub fn walk(&self, name: &Text) -> Walk<'_, R>
        ensures { result ≡ named R.name self.now name.now }
    {
        self.numbered.walk(name)
    }

    /// The marks of the rows with the name, the oldest first, without a look at the rows.
    pub fn marks(&self, name: &Text) -> Marks<'_, R::Mark>
        ensures { result ≡ map R.mark (named R.name self.now name.now) }
    {
        self.numbered.marks(name)
    }

    /// How many names the socket has.
    pub fn names(&self, socket: u64) -> u64
        ensures { result ≡ length (names_in R.name R.socket self.now socket) }
    {
        self.numbered.names(socket)
    }

    /// The socket's name with this place among its names, ascending, counted from 0.
    pub fn name(&self, socket: u64, at: u64) -> Option<&Text>
        ensures { option_copied result ≡ slice_get (names_in R.name R.socket self.now socket) at }
    {
        self.numbered.name(socket, at)
    }

    /// The least name of a row that comes after the given one, where one is given.
    pub fn next_name(&self, after: Option<&Text>) -> Option<&Text>
        ensures { option_copied result ≡ find (is_past (slice_cmp nat_cmp) (option_copied after.entry)) (names R.name self.now) }
    {
        self.numbered.next_name(after)
    }
}

/// The greatest number that is dealt. Where a number would be above it, the rows are numbered anew.
pub const LAST_NUMBER: u64 = 1 << 63;

/// A number above all others. Where none is left, the rows are numbered anew from 0 on. The rows stay
/// after want of memory.
fn next_number<R: Row + Drop>(numbered: &mut Numbered<R>) -> Result<u64, Memory>
    ensures rows { values_of numbered.new ≡ values_of numbered.old }
    ensures above { IfOk result (λ n. AreBelow n (keys_of numbered.new)) }
{
    match numbered.last() {
        None => Ok(0),
        Some(last) => {
            if last < LAST_NUMBER {
                return Ok(last + 1);
            }
            let anew = numbered.dealt_anew()?;
            *numbered = anew;
            Ok(numbered.len())
        }
    }
}

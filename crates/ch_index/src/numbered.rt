ghost use Rattle.std.specs.Prelude.{◌≡◌, ◌==◌, ◌^◌, ◌<◌, false, All, [], ◌∷◌, ◌++◌, None, OnOk, OnErr, IsSome, IfSome, IfNone, find, length, map, slice_get, option_copied, option_map, Some, IfOk};
ghost use Rattle.std.specs.Ordering.{is_lt, nat_cmp};
ghost use Rattle.std.specs.Map.{keys_of, values_of, lookup, remove_entry};
ghost use Rattle.std.specs.BTreeMap.{is_at};
ghost use Rattle.std.specs.Cmp.Lexicographic.{slice_cmp};
ghost use Rattle.ch_index.specs.Nest.{is_past};
ghost use Rattle.ch_index.specs.Rows.{has_row, named, names, names_in, of_socket, without_all, without_one};
ghost use Rattle.ch_index.specs.Numbered.{AreBelow, number_of};

use crate::marks::Marks;
use crate::nest::Nest;
use crate::row::Row;
use crate::walk::Walk;
use ch_base::{Memory, Text};
use std::alloc::Global;
use std::collections::BTreeMap;
use std::marker::Model;

/// Rows by their joining numbers, with the numbers and the marks at each name, and with each socket's names and numbers.
#[derive(Drop)]
pub struct Numbered<R: Row + Drop> {
    alloc: Global,
    rows: BTreeMap<u64, R>,
    by_name: Nest<Text, u64, R::Mark>,
    by_socket: Nest<u64, Text, u64>,
}

impl<R: Row + Drop> Model for Numbered<R> {
    ghost use Rattle.std.specs.Prelude.{List, ℕ};
    ghost use Rattle.ch_index.specs.Numbered.{IsIndexed};

    ghost Value = { List (ℕ × R) };

    ghost view = { λ n. n.rows.entries };

    ghost invariant = { λ n. IsIndexed R.name R.socket R.mark n.rows.entries n.by_name.maps n.by_socket.maps };
}

impl<R: Row + Drop> Numbered<R> {
    /// No rows. It takes no memory.
    pub fn new(alloc: Global) -> Numbered<R>
        ensures { result ≡ [] }
    {
        Numbered {
            alloc,
            rows: BTreeMap::new(alloc),
            by_name: Nest::new(alloc),
            by_socket: Nest::new(alloc),
        }
    }

    /// Adds the row under a number above all others. Nothing changes after want of memory.
    pub fn add(&mut self, number: u64, row: R) -> Result<(), Memory>
        requires above { AreBelow number (keys_of self.old) }
        requires absent { number_of R.name R.socket self.old (R.socket row) (R.name row) ≡ None }
        ensures ok { OnOk result (self.new ≡ self.old ++ (number, row) ∷ []) }
        ensures err { OnErr result (self.new ≡ self.old) }
    {
        let socket = row.socket();
        let name = row.name().copy(self.alloc)?;
        let key = row.name().copy(self.alloc)?;
        let socket_key = row.name().copy(self.alloc)?;
        self.by_name.put(key, number, row.mark())?;
        match self.by_socket.put(socket, socket_key, number) {
            Ok(()) => {}
            Err(memory) => {
                self.by_name.take(&name, &number);
                return Err(memory);
            }
        }
        match self.rows.insert(number, row) {
            Ok(_) => Ok(()),
            Err(_) => {
                self.by_name.take(&name, &number);
                self.by_socket.take(&socket, &name);
                Err(Memory)
            }
        }
    }

    /// Takes the row with this number out. It takes no memory.
    pub fn end(&mut self, number: u64)
        requires { IsSome (lookup (is_at (nat_cmp number)) self.old) }
        ensures { self.new ≡ remove_entry (is_at (nat_cmp number)) self.old }
    {
        let Some(row) = self.rows.remove(&number) else {
            return;
        };
        self.by_name.take(row.name(), &number);
        self.by_socket.take(&row.socket(), row.name());
    }

    /// The number of the row with this socket and name.
    pub fn number(&self, socket: u64, name: &Text) -> Option<u64>
        ensures { result ≡ number_of R.name R.socket self.now socket name.now }
    {
        self.by_socket.get(&socket, name).copied()
    }

    /// The row with this number.
    pub fn row(&self, number: u64) -> Option<&R>
        ensures { option_copied result ≡ lookup (is_at (nat_cmp number)) self.now }
    {
        self.rows.get(&number)
    }

    /// The greatest number.
    pub fn last(&self) -> Option<u64>
        ensures some { IfSome result (λ n. All (λ k. is_lt (nat_cmp n k) ≡ false) (keys_of self.now)) }
        ensures none { IfNone result (self.now ≡ []) }
    {
        match self.rows.last_key_value() {
            None => None,
            Some((number, _)) => Some(*number),
        }
    }

    /// How many rows there are.
    pub fn len(&self) -> u64
        ensures len { result ≡ length (values_of self.now) }
        ensures fits { result < 2 ^ 63 }
    {
        self.rows.len() as u64
    }

    /// How many rows have the name.
    pub fn count(&self, name: &Text) -> u64
        ensures { result ≡ length (named R.name (values_of self.now) name.now) }
    {
        self.by_name.count(name)
    }

    /// How many names the socket has.
    pub fn names(&self, socket: u64) -> u64
        ensures rows { result ≡ length (of_socket R.name R.socket (values_of self.now) socket) }
        ensures names { result ≡ length (names_in R.name R.socket (values_of self.now) socket) }
    {
        self.by_socket.count(&socket)
    }

    /// The socket's name with this place among its names, ascending, counted from 0.
    pub fn name(&self, socket: u64, at: u64) -> Option<&Text>
        ensures { option_copied result ≡ slice_get (names_in R.name R.socket (values_of self.now) socket) at }
    {
        self.by_socket.nth(&socket, at)
    }

    /// The row with this place among those with the name, counted from 0.
    pub fn nth(&self, name: &Text, at: u64) -> Option<&R>
        ensures { option_copied result ≡ slice_get (named R.name (values_of self.now) name.now) at }
    {
        match self.by_name.nth(name, at) {
            None => None,
            Some(number) => self.rows.get(number),
        }
    }

    /// The socket's row with the name.
    pub fn find(&self, socket: u64, name: &Text) -> Option<&R>
        ensures { option_copied result ≡ find (λ r. R.socket r == socket) (named R.name (values_of self.now) name.now) }
    {
        match self.by_socket.get(&socket, name) {
            None => None,
            Some(number) => self.rows.get(number),
        }
    }

    /// The least name of a row that comes after the given one, where one is given.
    pub fn next_name(&self, after: Option<&Text>) -> Option<&Text>
        ensures { option_copied result ≡ find (is_past (slice_cmp nat_cmp) (option_copied after.entry)) (names R.name (values_of self.now)) }
    {
        self.by_name.next_key(after)
    }

    /// The rows with the name, the oldest first.
    pub fn walk(&self, name: &Text) -> Walk<'_, R>
        ensures { result ≡ named R.name (values_of self.now) name.now }
    {
        Walk {
            numbers: self.by_name.keys(name),
            rows: &self.rows,
        }
    }

    /// The marks of the rows with the name, the oldest first.
    pub fn marks(&self, name: &Text) -> Marks<'_, R::Mark>
        ensures { result ≡ map R.mark (named R.name (values_of self.now) name.now) }
    {
        let _ = &self.rows;
        Marks {
            left: self.by_name.values(name),
        }
    }

    /// Takes the socket's row with the name out, and answers whether there was one. It takes no memory.
    pub fn leave(&mut self, socket: u64, name: &Text) -> bool
        ensures answer { result ≡ has_row R.name R.socket (values_of self.old) socket name.now }
        ensures rows { values_of self.new ≡ without_one R.name R.socket (values_of self.old) socket name.now }
    {
        let _ = &self.rows;
        match self.number(socket, name) {
            None => false,
            Some(number) => {
                self.end(number);
                true
            }
        }
    }

    /// The number of a row of the socket, where it has one.
    fn first_of(&self, socket: u64) -> Option<u64>
        ensures some { IfSome result (λ n. option_map R.socket (lookup (is_at (nat_cmp n)) self.now) ≡ Some socket) }
        ensures none { IfNone result (of_socket R.name R.socket (values_of self.now) socket ≡ []) }
    {
        match self.by_socket.nth(&socket, 0) {
            None => None,
            Some(name) => self.number(socket, name),
        }
    }

    /// Takes the rows of the socket out, and answers how many there were. It takes no memory.
    pub fn lost(&mut self, socket: u64) -> u64
        ensures answer { result ≡ length (names_in R.name R.socket (values_of self.old) socket) }
        ensures rows { values_of self.new ≡ without_all R.name R.socket (values_of self.old) socket }
    {
        let count = self.names(socket);
        for place in 0..count {
            match self.first_of(socket) {
                Some(number) => self.end(number),
                None => {}
            }
        }
        count
    }

    /// The same rows under the numbers from 0 on.
    pub fn dealt_anew(&self) -> Result<Numbered<R>, Memory>
        ensures rows { IfOk result (λ n. values_of n ≡ values_of self.now) }
        ensures numbers { IfOk result (λ n. AreBelow (length (values_of self.now)) (keys_of n)) }
    {
        let mut anew = Numbered::new(self.alloc);
        let mut number = 0;
        let mut left = self.rows.values();
        'rows: while let Some(row) = left.next() {
            let row = row.copy(self.alloc)?;
            anew.add(number, row)?;
            number += 1;
        }
        Ok(anew)
    }
}

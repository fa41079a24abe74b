ghost use Rattle.std.specs.Prelude.{◌≡◌, ◌<◌, [], length, not, IfOk, OnOk, OnErr, IsTrue, Ok, Some, false, slice_get};
ghost use Rattle.ch_history.specs.SignIns.{user_socket, of_user, has_one_of, users_of, has_any};
ghost use Rattle.ch_watch.specs.Watches.{added, holders_of, without};

use crate::user_rows::UserRows;
use ch_base::{Memory, Text};
use ch_index::{Holder, Holders};
use std::alloc::Global;
use std::marker::Model;

/// The sign-ins and the watches that last.
#[derive(Drop)]
pub struct Watches {
    signs: UserRows,
    watches: UserRows,
}

impl Model for Watches {
    ghost use Rattle.ch_watch.specs.Watches.{SignsAndWatches};

    ghost Value = { SignsAndWatches };

    ghost view = { λ w. record { signs = w.signs; watches = w.watches } };
}

impl Watches {
    /// No sign-ins and no watches. It takes no memory.
    pub fn new(alloc: Global) -> Watches
        ensures signs { result.signs ≡ [] }
        ensures watches { result.watches ≡ [] }
    {
        Watches {
            signs: UserRows::new(alloc),
            watches: UserRows::new(alloc),
        }
    }

    /// Signs the socket in as the user for its owner, and answers whether it wasn't before.
    ///
    /// A socket that is signed in as the user stays so with its first owner, and takes no memory.
    /// Nothing changes after want of memory.
    pub fn sign_in(&mut self, socket: u64, user: &Text, owner: u64) -> Result<bool, Memory>
        ensures answer { IfOk result (λ new. new ≡ not (has_one_of self.old.signs socket user.now)) }
        ensures ok { OnOk result (self.new.signs ≡ added self.old.signs (user_socket owner socket user.now)) }
        ensures err { OnErr result (self.new.signs ≡ self.old.signs) }
        ensures watches { self.new.watches ≡ self.old.watches }
        ensures already { IsTrue (has_one_of self.old.signs socket user.now) → result ≡ Ok false }
    {
        self.signs.add(socket, user, owner)
    }

    /// Lets the socket watch the user for its owner, and answers whether it didn't before.
    ///
    /// A socket that watches the user does so on with its first owner, and takes no memory. Nothing
    /// changes after want of memory.
    pub fn watch(&mut self, socket: u64, watched: &Text, owner: u64) -> Result<bool, Memory>
        ensures answer { IfOk result (λ new. new ≡ not (has_one_of self.old.watches socket watched.now)) }
        ensures ok { OnOk result (self.new.watches ≡ added self.old.watches (user_socket owner socket watched.now)) }
        ensures err { OnErr result (self.new.watches ≡ self.old.watches) }
        ensures signs { self.new.signs ≡ self.old.signs }
        ensures already { IsTrue (has_one_of self.old.watches socket watched.now) → result ≡ Ok false }
    {
        self.watches.add(socket, watched, owner)
    }

    /// Ends the watches and the sign-ins of the socket, and answers how many sign-ins and how many
    /// watches there were. It takes no memory.
    pub fn lost(&mut self, socket: u64) -> (u64, u64)
        ensures signed { result.0 ≡ length (users_of self.old.signs socket) }
        ensures watched { result.1 ≡ length (users_of self.old.watches socket) }
        ensures signs { self.new.signs ≡ without self.old.signs socket }
        ensures watches { self.new.watches ≡ without self.old.watches socket }
    {
        let watches = self.watches.end_all(socket);
        let signs = self.signs.end_all(socket);
        (signs, watches)
    }

    /// Whether the socket is signed in as the user.
    pub fn is_signed_in(&self, socket: u64, user: &Text) -> bool
        ensures { result ≡ has_one_of self.now.signs socket user.now }
    {
        self.signs.is_of(socket, user)
    }

    /// Whether the socket watches the user.
    pub fn is_watching(&self, socket: u64, user: &Text) -> bool
        ensures { result ≡ has_one_of self.now.watches socket user.now }
    {
        self.watches.is_of(socket, user)
    }

    /// Whether a socket is signed in as the user.
    pub fn is_online(&self, user: &Text) -> bool
        ensures { result ≡ has_any self.now.signs user.now }
    {
        self.signs.has_any(user)
    }

    /// Whether a socket other than this one is signed in as the user.
    pub fn has_other(&self, socket: u64, user: &Text) -> bool
        ensures { result ≡ has_any (without self.now.signs socket) user.now }
    {
        self.signs.has_other(socket, user)
    }

    /// How many sockets are signed in as the user.
    pub fn sockets(&self, user: &Text) -> u64
        ensures { result ≡ length (of_user self.now.signs user.now) }
    {
        self.signs.count(user)
    }

    /// The socket with this place among those that are signed in as the user, in the order of the
    /// calls, counted from 0.
    pub fn socket(&self, user: &Text, i: u64) -> Holder
        requires { i < length (of_user self.now.signs user.now) }
        ensures { slice_get (of_user self.now.signs user.now) i ≡ Some (user_socket result.owner result.socket user.now) }
    {
        self.signs.holder(user, i)
    }

    /// The sockets that are signed in as the user, each with its owner, in the order of the calls.
    pub fn signed_in(&self, user: &Text) -> Holders<'_>
        ensures { result ≡ holders_of self.now.signs user.now }
    {
        self.signs.holders(user)
    }

    /// How many sockets watch the user.
    pub fn watchers(&self, user: &Text) -> u64
        ensures { result ≡ length (of_user self.now.watches user.now) }
    {
        self.watches.count(user)
    }

    /// The socket with this place among those that watch the user, in the order of the calls, counted
    /// from 0.
    pub fn watcher(&self, user: &Text, i: u64) -> Holder
        requires { i < length (of_user self.now.watches user.now) }
        ensures { slice_get (of_user self.now.watches user.now) i ≡ Some (user_socket result.owner result.socket user.now) }
    {
        self.watches.holder(user, i)
    }

    /// The sockets that watch the user, each with its owner, in the order of the calls.
    pub fn watching(&self, user: &Text) -> Holders<'_>
        ensures { result ≡ holders_of self.now.watches user.now }
    {
        self.watches.holders(user)
    }

    /// As how many users the socket is signed in.
    pub fn users_of(&self, socket: u64) -> u64
        ensures { result ≡ length (users_of self.now.signs socket) }
    {
        self.signs.users_of(socket)
    }

    /// The user with this place among those as which the socket is signed in, in the order of the ids'
    /// bytes, counted from 0.
    pub fn user_of(&self, socket: u64, i: u64) -> &Text
        requires { i < length (users_of self.now.signs socket) }
        ensures { slice_get (users_of self.now.signs socket) i ≡ Some result.now }
    {
        self.signs.user_of(socket, i)
    }

    /// How many sign-ins last.
    pub fn open_signs(&self) -> u64
        ensures { result ≡ length self.now.signs }
    {
        self.signs.len()
    }
}

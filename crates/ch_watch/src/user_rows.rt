ghost use Rattle.std.specs.Prelude.{◌≡◌, ◌<◌, [], length, not, IfOk, OnOk, OnErr, IsTrue, Ok, Some, false, slice_get};
ghost use Rattle.ch_history.specs.SignIns.{user_socket, of_user, has_one_of, users_of, has_any};
ghost use Rattle.ch_watch.specs.Watches.{added, holders_of, without};

use crate::rows;
use ch_base::{Memory, Text};
use ch_history::UserSocket;
use ch_index::{Holder, Holders, Index};
use std::alloc::Global;
use std::marker::Model;

/// The sockets of users, found by their user and by their socket.
#[derive(Drop)]
pub struct UserRows {
    alloc: Global,
    index: Index<UserSocket>,
}

impl Model for UserRows {
    ghost use Rattle.std.specs.Prelude.{List};
    ghost use Rattle.ch_history.specs.declared.rows.UserSocket.{UserSocket};

    ghost Value = { List UserSocket };

    ghost view = { λ s. s.index };
}

impl UserRows {
    /// No rows. It takes no memory.
    pub fn new(alloc: Global) -> UserRows
        ensures { result ≡ [] }
    {
        UserRows {
            alloc,
            index: Index::new(alloc),
        }
    }

    /// Adds the socket with its owner to those of the user, and answers whether it is new there. One
    /// that is there stays as it was, and takes no memory. Nothing changes after want of memory.
    pub fn add(&mut self, socket: u64, user: &Text, owner: u64) -> Result<bool, Memory>
        ensures answer { IfOk result (λ new. new ≡ not (has_one_of self.old socket user.now)) }
        ensures ok { OnOk result (self.new ≡ added self.old (user_socket owner socket user.now)) }
        ensures err { OnErr result (self.new ≡ self.old) }
        ensures already { IsTrue (has_one_of self.old socket user.now) → result ≡ Ok false }
    {
        if rows::is_of(&self.index, socket, user) {
            return Ok(false);
        }
        let row = rows::row(self.alloc, socket, user, owner)?;
        self.index.add(row)?;
        Ok(true)
    }

    /// Ends all rows of the socket, and answers how many there were.
    pub fn end_all(&mut self, socket: u64) -> u64
        ensures answer { result ≡ length (users_of self.old socket) }
        ensures rows { self.new ≡ without self.old socket }
    {
        self.index.lost(socket)
    }

    /// Whether the socket is one of the user's.
    pub fn is_of(&self, socket: u64, user: &Text) -> bool
        ensures { result ≡ has_one_of self.now socket user.now }
    {
        rows::is_of(&self.index, socket, user)
    }

    /// Whether the user has a socket.
    pub fn has_any(&self, user: &Text) -> bool
        ensures { result ≡ has_any self.now user.now }
    {
        rows::has_any(&self.index, user)
    }

    /// Whether another socket is one of the user's.
    pub fn has_other(&self, socket: u64, user: &Text) -> bool
        ensures { result ≡ has_any (without self.now socket) user.now }
    {
        rows::has_other(&self.index, socket, user)
    }

    /// How many sockets the user has.
    pub fn count(&self, user: &Text) -> u64
        ensures { result ≡ length (of_user self.now user.now) }
    {
        self.index.count(user)
    }

    /// The user's socket with this place in the order of the calls, counted from 0.
    pub fn holder(&self, user: &Text, i: u64) -> Holder
        requires { i < length (of_user self.now user.now) }
        ensures { slice_get (of_user self.now user.now) i ≡ Some (user_socket result.owner result.socket user.now) }
    {
        match self.index.nth(user, i) {
            Some(row) => Holder {
                socket: row.socket,
                owner: row.owner,
            },
            None => unreachable!(),
        }
    }

    /// The user's sockets, each with its owner, in the order of the calls.
    pub fn holders(&self, user: &Text) -> Holders<'_>
        ensures { result ≡ holders_of self.now user.now }
    {
        self.index.marks(user)
    }

    /// How many users the socket has.
    pub fn users_of(&self, socket: u64) -> u64
        ensures { result ≡ length (users_of self.now socket) }
    {
        self.index.names(socket)
    }

    /// The socket's user with this place in the order of the ids' bytes, counted from 0.
    pub fn user_of(&self, socket: u64, i: u64) -> &Text
        requires { i < length (users_of self.now socket) }
        ensures { slice_get (users_of self.now socket) i ≡ Some result.now }
    {
        match self.index.name(socket, i) {
            Some(user) => user,
            None => unreachable!(),
        }
    }

    /// How many rows there are.
    pub fn len(&self) -> u64
        ensures { result ≡ length self.now }
    {
        self.index.len()
    }
}

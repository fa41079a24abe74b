ghost use Rattle.std.specs.Prelude.{◌≡◌, ◌<◌, [], ◌∷◌, ◌++◌, false, not, length, IfOk, OnOk, OnErr, IsTrue, ◌↔◌, Some, slice_get};
ghost use Rattle.std.specs.Option.{option_copied};
ghost use Rattle.ch_history.specs.Texts.{has_text};
ghost use Rattle.ch_presence.specs.Members.{present, ids_on, rows_on, is_present, member_of, user_of, without, without_all};

use crate::present::Present;
use crate::{rows, users};
use ch_base::{Member, Memory, Text};
use ch_index::Index;
use std::alloc::Global;
use std::marker::Model;

/// Who is on the presence channels, found by the channel and by the socket.
#[derive(Drop)]
pub struct Presence {
    alloc: Global,
    index: Index<Present>,
}

impl Model for Presence {
    ghost use Rattle.ch_presence.specs.Members.{Roster};

    ghost Value = { Roster };

    ghost view = { λ p. record { rows = p.index } };
}

impl Presence {
    /// Nobody is present. It takes no memory.
    pub fn new(alloc: Global) -> Presence
        ensures { result.rows ≡ [] }
    {
        Presence {
            alloc,
            index: Index::new(alloc),
        }
    }

    /// Puts the socket on the channel as this member, and answers whether the user is new there. Nobody
    /// comes or goes after want of memory.
    pub fn join(&mut self, channel: &Text, socket: u64, member: &Member) -> Result<bool, Memory>
        requires { is_present self.old.rows channel.now socket ≡ false }
        ensures answer { IfOk result (λ is_new. is_new ≡ not (has_text (ids_on self.old.rows channel.now) member.now.user_id)) }
        ensures ok { OnOk result (self.new.rows ≡ self.old.rows ++ present channel.now socket member.now ∷ []) }
        ensures err { OnErr result (self.new.rows ≡ self.old.rows) }
    {
        let row = Present::of(self.alloc, channel, socket, member)?;
        let is_new = !rows::has_user(&self.index, channel, &member.user_id);
        self.index.add(row)?;
        Ok(is_new)
    }

    /// Ends the presence of the socket, which is on the channel as this user, and answers whether the user
    /// is gone from there. It takes no memory.
    pub fn leave(&mut self, channel: &Text, socket: u64, user_id: &Text) -> bool
        requires { user_of self.old.rows channel.now socket ≡ Some user_id.now }
        ensures answer { result ≡ not (has_text (ids_on self.new.rows channel.now) user_id.now) }
        ensures rows { self.new.rows ≡ without self.old.rows channel.now socket }
    {
        self.index.leave(socket, channel);
        !rows::has_user(&self.index, channel, user_id)
    }

    /// Ends the presence of the socket on all channels. It takes no memory.
    pub fn lost(&mut self, socket: u64)
        ensures { self.new.rows ≡ without_all self.old.rows socket }
    {
        self.index.lost(socket);
    }

    /// Whether the socket is on the channel.
    pub fn is_present(&self, channel: &Text, socket: u64) -> bool
        ensures { result ≡ is_present self.now.rows channel.now socket }
    {
        self.index.has(socket, channel)
    }

    /// Whether the socket is on the channel as this user.
    pub fn is_present_as(&self, channel: &Text, socket: u64, user_id: &Text) -> bool
        ensures { IsTrue result ↔ (user_of self.now.rows channel.now socket ≡ Some user_id.now) }
    {
        match self.member(channel, socket) {
            Some(member) => member.user_id == *user_id,
            None => false,
        }
    }

    /// The member as which the socket is on the channel; none where it isn't.
    pub fn member(&self, channel: &Text, socket: u64) -> Option<&Member>
        ensures { option_copied result ≡ member_of self.now.rows channel.now socket }
    {
        let row = rows::row_of(&self.index, channel, socket)?;
        Some(&row.member)
    }

    /// How many users are on the channel.
    pub fn count(&self, channel: &Text) -> u64
        ensures { result ≡ length (ids_on self.now.rows channel.now) }
    {
        users::count(&self.index, channel)
    }

    /// The channel's user with this place in the order of the ids' bytes, counted from 0, with the info
    /// of its oldest subscription.
    pub fn row(&self, channel: &Text, i: u64) -> &Member
        requires { i < length (ids_on self.now.rows channel.now) }
        ensures { slice_get (rows_on self.now.rows channel.now) i ≡ Some result.now }
    {
        match users::nth_user(&self.index, None, channel, i) {
            Some(member) => member,
            None => unreachable!(),
        }
    }

    /// The user with this place on the newcomer's channel once it is there too, as `row` has it then; none
    /// where there are no more.
    pub fn row_with<'a>(&'a self, newcomer: &'a Present, i: u64) -> Option<&'a Member>
        ensures { option_copied result ≡ slice_get (rows_on (self.now.rows ++ newcomer.now ∷ []) newcomer.now.channel) i }
    {
        users::nth_user(&self.index, Some(&newcomer.member), &newcomer.channel, i)
    }

    /// Whether the user is gone from the channel once the socket has left it.
    pub fn is_last(&self, channel: &Text, socket: u64, user_id: &Text) -> bool
        ensures { result ≡ not (has_text (ids_on (without self.now.rows channel.now socket) channel.now) user_id.now) }
    {
        !rows::has_another(&self.index, channel, socket, user_id)
    }

    /// Whether the user is on the channel.
    pub fn has(&self, channel: &Text, user_id: &Text) -> bool
        ensures { result ≡ has_text (ids_on self.now.rows channel.now) user_id.now }
    {
        rows::has_user(&self.index, channel, user_id)
    }
}

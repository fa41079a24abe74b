ghost use Rattle.std.specs.Prelude.{◌≡◌, ◌<◌, ◌==◌, [], length, IfOk, OnOk, OnErr, IsTrue, Ok, Some, None, find, slice_get, if◌then◌else◌};
ghost use Rattle.std.specs.Option.{option_copied};
ghost use Rattle.ch_history.specs.Subscriptions.{is_on, on_channel, channels_in};
ghost use Rattle.ch_subs.specs.Subs.{holders_in, joined, subscription, without_one, without_all};
ghost use Rattle.ch_subs.specs.Names.{is_above, names};
ghost use Rattle.ch_subs.specs.declared.joined_as.JoinedAs.TheVariants.{Fresh, Already};

use crate::joined_as::JoinedAs;
use crate::rows;
use ch_base::{Member, Memory, Text};
use ch_history::Subscription;
use ch_index::{Holders, Index, Walk};
use std::alloc::Global;
use std::marker::Model;

/// The open subscriptions, found by their channel and by their socket.
#[derive(Drop)]
pub struct Subs {
    alloc: Global,
    index: Index<Subscription>,
}

impl Model for Subs {
    ghost use Rattle.std.specs.Prelude.{List};
    ghost use Rattle.ch_history.specs.declared.rows.Subscription.{Subscription};

    ghost Value = { List Subscription };

    ghost view = { λ s. s.index };
}

/// The subscriptions to a channel, in the order of joining.
pub type SubWalk<'a> = Walk<'a, Subscription>;

impl Subs {
    /// No subscriptions. It takes no memory.
    pub fn new(alloc: Global) -> Subs
        ensures { result ≡ [] }
    {
        Subs {
            alloc,
            index: Index::new(alloc),
        }
    }

    /// Subscribes the socket to the channel for its owner, on a presence channel as this member.
    ///
    /// A socket that is on the channel stays on it as it was, with its first owner and member, and
    /// takes no memory. Nothing changes after want of memory.
    pub fn join(
        &mut self,
        socket: u64,
        channel: &Text,
        owner: u64,
        member: Option<&Member>,
    ) -> Result<JoinedAs, Memory>
        ensures answer { IfOk result (λ how. how ≡ (if is_on self.old socket channel.now then Already else Fresh)) }
        ensures ok { OnOk result (self.new ≡ joined self.old (subscription socket channel.now owner (option_copied member.entry))) }
        ensures err { OnErr result (self.new ≡ self.old) }
        ensures already { IsTrue (is_on self.old socket channel.now) → result ≡ Ok Already }
    {
        if is_on(&self.index, socket, channel) {
            return Ok(JoinedAs::Already);
        }
        let row = rows::subscription(self.alloc, socket, channel, owner, member)?;
        self.index.add(row)?;
        Ok(JoinedAs::Fresh)
    }

    /// Ends the socket's subscription to the channel, and answers whether there was one. It takes no
    /// memory.
    pub fn leave(&mut self, socket: u64, channel: &Text) -> bool
        ensures answer { result ≡ is_on self.old socket channel.now }
        ensures subs { self.new ≡ without_one self.old socket channel.now }
    {
        let was_on = is_on(&self.index, socket, channel);
        self.index.leave(socket, channel);
        was_on
    }

    /// Ends all subscriptions of the socket, and answers how many there were. It takes no memory.
    pub fn lost(&mut self, socket: u64) -> u64
        ensures answer { result ≡ length (channels_in self.old socket) }
        ensures subs { self.new ≡ without_all self.old socket }
    {
        self.index.lost(socket)
    }

    /// How many subscriptions there are.
    pub fn len(&self) -> u64
        ensures { result ≡ length self.now }
    {
        self.index.len()
    }

    /// Whether the socket is subscribed to the channel.
    pub fn on(&self, socket: u64, channel: &Text) -> bool
        ensures { result ≡ is_on self.now socket channel.now }
    {
        is_on(&self.index, socket, channel)
    }

    /// The socket's subscription to the channel; none where it isn't on it.
    pub fn find(&self, socket: u64, channel: &Text) -> Option<&Subscription>
        ensures { option_copied result ≡ find (λ s. s.socket == socket) (on_channel self.now channel.now) }
    {
        self.index.find(socket, channel)
    }

    /// How many sockets are subscribed to the channel.
    pub fn count(&self, channel: &Text) -> u64
        ensures { result ≡ length (on_channel self.now channel.now) }
    {
        self.index.count(channel)
    }

    /// The channel's subscription with this place in the order of joining, counted from 0.
    pub fn sub(&self, channel: &Text, i: u64) -> &Subscription
        requires { i < length (on_channel self.now channel.now) }
        ensures { slice_get (on_channel self.now channel.now) i ≡ Some result.now }
    {
        match self.index.nth(channel, i) {
            Some(row) => row,
            None => unreachable!(),
        }
    }

    /// The channel's subscriptions in the order of joining, from `sub(channel, 0)` on.
    pub fn walk<'a>(&'a self, channel: &Text) -> SubWalk<'a>
        ensures { result ≡ on_channel self.now channel.now }
    {
        self.index.walk(channel)
    }

    /// The sockets that are subscribed to the channel, each with its owner, in the order of joining.
    pub fn holders(&self, channel: &Text) -> Holders<'_>
        ensures { result ≡ holders_in self.now channel.now }
    {
        self.index.marks(channel)
    }

    /// How many channels the socket is subscribed to.
    pub fn channels(&self, socket: u64) -> u64
        ensures { result ≡ length (channels_in self.now socket) }
    {
        self.index.names(socket)
    }

    /// The socket's channel with this place in the order of the names' bytes, counted from 0.
    pub fn channel(&self, socket: u64, i: u64) -> &Text
        requires { i < length (channels_in self.now socket) }
        ensures { slice_get (channels_in self.now socket) i ≡ Some result.now }
    {
        match self.index.name(socket, i) {
            Some(name) => name,
            None => unreachable!(),
        }
    }

    /// The least name of a channel with a subscription that comes after the given name, or the least
    /// one of all; none where there is no such channel.
    pub fn next_name(&self, after: Option<&Text>) -> Option<&Text>
        ensures { option_copied result ≡ find (is_above (option_copied after.entry)) (names self.now) }
    {
        self.index.next_name(after)
    }
}

/// Whether the socket is subscribed to the channel.
fn is_on(index: &Index<Subscription>, socket: u64, channel: &Text) -> bool
    ensures { result ≡ is_on index.now socket channel.now }
{
    index.has(socket, channel)
}

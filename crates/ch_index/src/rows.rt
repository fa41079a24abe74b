ghost use Rattle.std.specs.Prelude.{◌≡◌, IfOk};
ghost use Rattle.std.specs.Option.{option_copied};
ghost use Rattle.ch_index.specs.Holders.{holder_of};

use crate::holder::Holder;
use crate::row::Row;
use ch_base::{Member, Memory, Text};
use ch_history::{Subscription, UserSocket};
use std::alloc::Global;

/// A subscription is found by its channel and its socket.
impl Row for Subscription {
    type Mark = Holder;

    ghost name = { λ s. s.channel };

    ghost socket = { λ s. s.socket };

    ghost mark = { holder_of (λ s. s.socket) (λ s. s.owner) };

    fn name(&self) -> &Text {
        &self.channel
    }

    fn socket(&self) -> u64 {
        self.socket
    }

    fn mark(&self) -> Holder {
        Holder {
            socket: self.socket,
            owner: self.owner,
        }
    }

    fn copy(&self, alloc: Global) -> Result<Subscription, Memory> {
        Ok(Subscription {
            channel: self.channel.copy(alloc)?,
            socket: self.socket,
            owner: self.owner,
            member: copied(alloc, self.member.as_ref())?,
        })
    }
}

/// A sign-in, and a watch, is found by its user and its socket.
impl Row for UserSocket {
    type Mark = Holder;

    ghost name = { λ s. s.user };

    ghost socket = { λ s. s.socket };

    ghost mark = { holder_of (λ s. s.socket) (λ s. s.owner) };

    fn name(&self) -> &Text {
        &self.user
    }

    fn socket(&self) -> u64 {
        self.socket
    }

    fn mark(&self) -> Holder {
        Holder {
            socket: self.socket,
            owner: self.owner,
        }
    }

    fn copy(&self, alloc: Global) -> Result<UserSocket, Memory> {
        Ok(UserSocket {
            user: self.user.copy(alloc)?,
            socket: self.socket,
            owner: self.owner,
        })
    }
}

fn copied(alloc: Global, member: Option<&Member>) -> Result<Option<Member>, Memory>
    ensures { IfOk result (λ m. m ≡ option_copied member.entry) }
{
    match member {
        None => Ok(None),
        Some(member) => Ok(Some(member.copy(alloc)?)),
    }
}

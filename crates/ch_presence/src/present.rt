ghost use Rattle.std.specs.Prelude.{◌≡◌, IfOk};
ghost use Rattle.ch_presence.specs.Members.{present};

use ch_base::{Member, Memory, Text};
use ch_index::Row;
use std::alloc::Global;

/// A socket that is on a presence channel as a member.
#[derive(Debug, PartialEq, Eq, Drop)]
pub struct Present {
    pub channel: Text,
    pub socket: u64,
    pub member: Member,
}

impl Present {
    /// A row with copies of the channel's name and of the member.
    pub fn of(
        alloc: Global,
        channel: &Text,
        socket: u64,
        member: &Member,
    ) -> Result<Present, Memory>
        ensures { IfOk result (λ r. r ≡ present channel.now socket member.now) }
    {
        Ok(Present {
            channel: channel.copy(alloc)?,
            socket,
            member: member.copy(alloc)?,
        })
    }
}

/// A row is found by its channel and its socket. Nobody is told anything by it, since a socket on a presence channel has a
/// subscription too.
impl Row for Present {
    type Mark = ();

    ghost name = { λ r. r.channel };

    ghost socket = { λ r. r.socket };

    ghost mark = { λ _. tt };

    fn name(&self) -> &Text {
        &self.channel
    }

    fn socket(&self) -> u64 {
        self.socket
    }

    fn mark(&self) {}

    fn copy(&self, alloc: Global) -> Result<Present, Memory> {
        Present::of(alloc, &self.channel, self.socket, &self.member)
    }
}

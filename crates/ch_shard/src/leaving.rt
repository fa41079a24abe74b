ghost use Rattle.std.specs.Prelude.{◌≡◌, MatchResult};
ghost use Rattle.ch_presence.specs.Members.{without};
ghost use Rattle.ch_shard.specs.Parts.{IsUnchanged, LeaveGives, LostGives};
ghost use Rattle.ch_shard.specs.Sound.{AreSoundRows};

use crate::channels::Channels;
use crate::effects::{Effects, hand_over, make_room};
use crate::parting::{part, partings, user_of};
use ch_base::{ChanAnswer, Memory, Text};
use ch_presence::Presence;
use ch_subs::Subs;

impl Channels {
    pub(crate) fn leave(
        &mut self,
        socket: u64,
        channel: &Text,
        now: u64,
    ) -> Result<ChanAnswer, Memory>
        ensures { MatchResult result (λ answer. LeaveGives self.old self.new now socket channel.now answer) (λ _. IsUnchanged self.old self.new) }
    {
        if !self.subs.on(socket, channel) {
            return Ok(ChanAnswer::NotOn);
        }
        let mut made = Effects::new(self.alloc);
        part(&mut self.press, &self.subs, channel, socket, &mut made)?;
        make_room(&mut self.outbox, &mut self.log, &made, now)?;
        depart(&mut self.presence, &self.subs, channel, socket);
        self.subs.leave(socket, channel);
        hand_over(&mut self.outbox, &mut self.log, made, now);
        Ok(ChanAnswer::Left)
    }

    pub(crate) fn lost(&mut self, socket: u64, now: u64) -> Result<ChanAnswer, Memory>
        ensures { MatchResult result (λ answer. LostGives self.old self.new now socket answer) (λ _. IsUnchanged self.old self.new) }
    {
        let made = partings(&mut self.press, &self.subs, socket)?;
        make_room(&mut self.outbox, &mut self.log, &made, now)?;
        self.presence.lost(socket);
        let count = self.subs.lost(socket);
        hand_over(&mut self.outbox, &mut self.log, made, now);
        Ok(ChanAnswer::Gone { count })
    }
}

/// Ends the presence of the socket on the channel. It takes no memory.
fn depart(presence: &mut Presence, subs: &Subs, channel: &Text, socket: u64)
    requires { AreSoundRows subs.now presence.old.rows }
    ensures { presence.new.rows ≡ without presence.old.rows channel.now socket }
{
    match user_of(subs, channel, socket) {
        None => {}
        Some(user_id) => {
            presence.leave(channel, socket, user_id);
        }
    }
}

ghost use Rattle.std.specs.Prelude.{◌≡◌, ◌<◌, ◌&&◌, not, length, nat_le, IfOk, MatchResult, OnOk, OnErr};
ghost use Rattle.std.specs.Option.{option_copied};
ghost use Rattle.ch_base.specs.declared.limits.TheConstants.{MAX_CALLERS};
ghost use Rattle.ch_history.specs.Answers.{is_crowded};
ghost use Rattle.ch_history.specs.ChannelName.{is_presence};
ghost use Rattle.ch_history.specs.declared.limits.TheConstants.{MAX_USERS};
ghost use Rattle.ch_history.specs.Texts.{has_text};
ghost use Rattle.ch_history.specs.Subscriptions.{on_channel};
ghost use Rattle.ch_history.specs.WellFormed.{IsMemberOf};
ghost use Rattle.ch_presence.specs.Members.{ids_on, with_newcomer};
ghost use Rattle.ch_shard.specs.Greeting.{newcomer_row, IsAbsent};
ghost use Rattle.ch_shard.specs.Parts.{IsUnchanged, JoinGives, newcomer, join_frames, join_hooks};

use crate::channels::Channels;
use crate::effects::{Effects, hand_over, make_room};
use crate::greeting::{
    first_frame, greet, log_arrival, log_missed, log_occupied, new_user, tell_arrival, tell_latest,
};
use ch_base::{ChanAnswer, Hook, Member, Memory, Text};
use ch_history::{Delivery, MAX_USERS};
use ch_presence::{Presence, Present};
use std::alloc::Global;

impl Channels {
    pub(crate) fn join(
        &mut self,
        caller: u64,
        socket: u64,
        channel: &Text,
        member: Option<&Member>,
        now: u64,
    ) -> Result<ChanAnswer, Memory>
        requires caller { caller < MAX_CALLERS }
        requires member { IsMemberOf (is_presence channel.now) (option_copied member) }
        ensures { MatchResult result (λ answer. JoinGives self.old self.new now (newcomer caller socket channel.now (option_copied member.entry)) answer) (λ _. IsUnchanged self.old self.new) }
    {
        if self.subs.on(socket, channel) {
            return Ok(ChanAnswer::Already);
        }
        if self.is_crowded(channel, member) {
            return Ok(ChanAnswer::Crowded);
        }
        let row = newcomer_row(self.alloc, channel, socket, member)?;
        let frames = self.greeting_frames(caller, socket, channel, member, row.as_ref(), now)?;
        let hooks = self.greeting_hooks(channel, member, now)?;
        let made = Effects { frames, hooks };
        make_room(&mut self.outbox, &mut self.log, &made, now)?;
        self.subs.join(socket, channel, caller, member)?;
        match enter(&mut self.presence, row.as_ref()) {
            Ok(()) => {}
            Err(memory) => {
                self.subs.leave(socket, channel);
                return Err(memory);
            }
        }
        hand_over(&mut self.outbox, &mut self.log, made, now);
        Ok(ChanAnswer::Joined)
    }

    /// Whether the member would be a new user of a full presence channel.
    fn is_crowded(&self, channel: &Text, member: Option<&Member>) -> bool
        requires { IsMemberOf (is_presence channel.now) (option_copied member) }
        ensures { result ≡ is_crowded channel.now (on_channel self.now.subs channel.now) (option_copied member.entry) }
    {
        match member {
            None => false,
            Some(member) => is_full_for(&self.presence, channel, &member.user_id),
        }
    }

    /// The frames that the newcomer makes at the moment.
    fn greeting_frames(
        &mut self,
        caller: u64,
        socket: u64,
        channel: &Text,
        member: Option<&Member>,
        row: Option<&Present>,
        now: u64,
    ) -> Result<Vec<Delivery>, Memory>
        requires member { IsMemberOf (is_presence channel.now) (option_copied member) }
        requires row { option_copied row ≡ newcomer_row channel.now socket (option_copied member) }
        ensures made { IfOk result (λ made. made.items ≡ join_frames self.old now (newcomer caller socket channel.now (option_copied member.entry))) }
        ensures same { self.new ≡ self.old }
    {
        let mut frames = Vec::new(self.alloc);
        let frame = first_frame(self.alloc, &self.presence, channel, row)?;
        greet(&mut self.press, caller, socket, frame, &mut frames)?;
        tell_latest(
            &mut self.press,
            self.cache.latest(channel, now),
            caller,
            socket,
            channel,
            &mut frames,
        )?;
        let user = new_user(&self.presence, channel, member);
        tell_arrival(&mut self.press, &self.subs, channel, user, &mut frames)?;
        Ok(frames)
    }

    /// The webhook events that the newcomer makes at the moment.
    fn greeting_hooks(
        &self,
        channel: &Text,
        member: Option<&Member>,
        now: u64,
    ) -> Result<Vec<Hook>, Memory>
        requires { IsMemberOf (is_presence channel.now) (option_copied member) }
        ensures { IfOk result (λ made. made.items ≡ join_hooks self.now now (newcomer 0 0 channel.now (option_copied member.entry))) }
    {
        let mut hooks = Vec::new(self.alloc);
        let count = self.subs.count(channel);
        log_occupied(self.alloc, count, channel, &mut hooks)?;
        let user = new_user(&self.presence, channel, member);
        log_arrival(self.alloc, channel, user, &mut hooks)?;
        log_missed(
            self.alloc,
            self.cache.latest(channel, now),
            channel,
            &mut hooks,
        )?;
        Ok(hooks)
    }
}

/// Whether the channel is full and the user isn't on it.
fn is_full_for(presence: &Presence, channel: &Text, user_id: &Text) -> bool
    ensures { result ≡ (not (has_text (ids_on presence.now.rows channel.now) user_id.now) && nat_le MAX_USERS (length (ids_on presence.now.rows channel.now))) }
{
    !presence.has(channel, user_id) && presence.count(channel) >= MAX_USERS
}

/// The row of a newcomer with a member.
fn newcomer_row(
    alloc: Global,
    channel: &Text,
    socket: u64,
    member: Option<&Member>,
) -> Result<Option<Present>, Memory>
    ensures { IfOk result (λ row. row ≡ newcomer_row channel.now socket (option_copied member.entry)) }
{
    match member {
        None => Ok(None),
        Some(member) => Ok(Some(Present::of(alloc, channel, socket, member)?)),
    }
}

/// Puts the newcomer on its channel, where it has a row. Nobody comes after want of memory.
fn enter(presence: &mut Presence, row: Option<&Present>) -> Result<(), Memory>
    requires { IsAbsent presence.old.rows (option_copied row) }
    ensures ok { OnOk result (presence.new.rows ≡ with_newcomer presence.old.rows (option_copied row.entry)) }
    ensures err { OnErr result (presence.new.rows ≡ presence.old.rows) }
{
    match row {
        None => Ok(()),
        Some(row) => match presence.join(&row.channel, row.socket, &row.member) {
            Ok(_) => Ok(()),
            Err(memory) => Err(memory),
        },
    }
}

ghost use Rattle.std.specs.Prelude.{◌≡◌, IfOk, MatchResult};
ghost use Rattle.std.specs.Option.{option_copied};
ghost use Rattle.ch_base.specs.declared.webhook.Hook.TheVariants.{Client};
ghost use Rattle.ch_shard.specs.Parts.{IsUnchanged, SayGives};

use crate::channels::Channels;
use crate::effects::{Effects, hand_over, make_room};
use crate::news::{copied_id, event_frame};
use crate::parting::user_of;
use crate::telling::broadcast;
use ch_base::{ChanAnswer, Hook, Memory, Text};
use std::alloc::Global;

impl Channels {
    pub(crate) fn say(
        &mut self,
        socket: u64,
        channel: &Text,
        event: &Text,
        body: &Text,
        now: u64,
    ) -> Result<ChanAnswer, Memory>
        ensures { MatchResult result (λ answer. SayGives self.old self.new now socket channel.now event.now body.now answer) (λ _. IsUnchanged self.old self.new) }
    {
        if !self.subs.on(socket, channel) {
            return Ok(ChanAnswer::NotOn);
        }
        let user_id = user_of(&self.subs, channel, socket);
        let frame = event_frame(self.alloc, channel, event, body, user_id)?;
        let hook = client_event(self.alloc, socket, channel, event, body, user_id)?;
        let mut hooks = Vec::new(self.alloc);
        hooks.push(hook)?;
        let printed = self.press.print(frame)?;
        let frames = broadcast(self.alloc, &self.subs, channel, &printed, Some(socket))?;
        let made = Effects { frames, hooks };
        make_room(&mut self.outbox, &mut self.log, &made, now)?;
        hand_over(&mut self.outbox, &mut self.log, made, now);
        Ok(ChanAnswer::Said)
    }
}

/// The webhook event of a client event.
fn client_event(
    alloc: Global,
    socket: u64,
    channel: &Text,
    event: &Text,
    body: &Text,
    user_id: Option<&Text>,
) -> Result<Hook, Memory>
    ensures { IfOk result (λ hook. hook ≡ Client channel.now event.now body.now socket (option_copied user_id.entry)) }
{
    Ok(Hook::Client {
        channel: channel.copy(alloc)?,
        event: event.copy(alloc)?,
        body: body.copy(alloc)?,
        socket,
        user_id: copied_id(alloc, user_id)?,
    })
}

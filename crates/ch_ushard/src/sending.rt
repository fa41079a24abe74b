ghost use Rattle.std.specs.Prelude.{◌≡◌, ◌<◌, None, false, IfOk, MatchResult, map};
ghost use Rattle.ch_base.specs.Printed.{is_opened};
ghost use Rattle.ch_base.specs.declared.frame.Frame.TheVariants.{Event};
ghost use Rattle.ch_base.specs.declared.limits.TheConstants.{MAX_CALLERS};
ghost use Rattle.ch_history.specs.SignIns.{of_user};
ghost use Rattle.ch_history.specs.UserFrames.{to_socket, user_channel};
ghost use Rattle.ch_ushard.specs.UserShardState.{IsUnchanged, TerminateGives, SendToGives, TakeGives};
ghost use Rattle.ch_ushard.specs.Effects.{HasOwners};

use crate::effects::Effects;
use crate::shard::UserShard;
use ch_base::{Frame, Memory, Text, UserAnswer};
use ch_names::own_channel;
use ch_print::Press;
use ch_watch::Watches;
use std::alloc::Global;

impl UserShard {
    pub(crate) fn terminate(&mut self, user: &Text) -> Result<UserAnswer, Memory>
        ensures { MatchResult result (λ answer. TerminateGives self.old self.new user.now answer) (λ _. IsUnchanged self.old self.new) }
    {
        let made = for_sockets(&mut self.press, &self.watches, user, Frame::Kill)?;
        made.reserve(&mut self.outbox)?;
        made.deliver(&mut self.outbox);
        let count = self.watches.sockets(user);
        Ok(UserAnswer::Killed { count })
    }

    pub(crate) fn send_to(
        &mut self,
        user: &Text,
        event: &Text,
        body: &Text,
    ) -> Result<UserAnswer, Memory>
        ensures { MatchResult result (λ answer. SendToGives self.old self.new user.now event.now body.now answer) (λ _. IsUnchanged self.old self.new) }
    {
        let frame = event_frame(self.alloc, user, event, body)?;
        let made = for_sockets(&mut self.press, &self.watches, user, frame)?;
        made.reserve(&mut self.outbox)?;
        made.deliver(&mut self.outbox);
        let count = self.watches.sockets(user);
        Ok(UserAnswer::SentTo { count })
    }

    pub(crate) fn take(&mut self, caller: u64) -> UserAnswer
        requires { caller < MAX_CALLERS }
        ensures { TakeGives self.old self.new caller result }
    {
        UserAnswer::Frames(self.outbox.take_all(caller))
    }
}

/// The frame for each socket of the user.
fn for_sockets(
    press: &mut Press,
    watches: &Watches,
    user: &Text,
    frame: Frame,
) -> Result<Effects, Memory>
    requires owners { HasOwners watches.now }
    requires timeless { is_opened frame ≡ false }
    ensures { IfOk result (λ made. made ≡ map (to_socket frame) (of_user watches.now.signs user.now)) }
{
    let mut made = Effects::new(press.alloc());
    if watches.sockets(user) == 0 {
        return Ok(made);
    }
    let printed = press.print(frame)?;
    made.tell(watches.signed_in(user), &printed, None)?;
    Ok(made)
}

/// The event on the user's own channel.
fn event_frame(alloc: Global, user: &Text, event: &Text, body: &Text) -> Result<Frame, Memory>
    ensures { IfOk result (λ f. f ≡ Event (user_channel user.now) event.now body.now None) }
{
    Ok(Frame::Event {
        channel: own_channel(alloc, user.as_str())?,
        event: event.copy(alloc)?,
        body: body.copy(alloc)?,
        user_id: None,
    })
}

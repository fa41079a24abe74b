ghost use Rattle.std.specs.Prelude.{◌<◌, ◌≤◌, length};
ghost use Rattle.ch_base.specs.declared.limits.TheConstants.{MAX_CALLERS};
ghost use Rattle.ch_history.specs.Held.{due};
ghost use Rattle.ch_shard.specs.Parts.{TakeGives, TakeHooksGives};

use crate::channels::Channels;
use ch_base::ChanAnswer;

impl Channels {
    pub(crate) fn take(&mut self, caller: u64) -> ChanAnswer
        requires { caller < MAX_CALLERS }
        ensures { TakeGives self.old self.new caller result }
    {
        ChanAnswer::Frames(self.outbox.take_all(caller))
    }

    /// The notices that are due at the moment are taken too.
    pub(crate) fn take_hooks(&mut self, now: u64) -> ChanAnswer
        requires { length (due now self.old.held) ≤ self.old.spare }
        ensures { TakeHooksGives self.old self.new now result }
    {
        self.log.release(now);
        ChanAnswer::Hooks(self.log.take_all())
    }
}

ghost use Rattle.std.specs.Prelude.{◌≡◌, ◌∷◌, [], List};
ghost use Rattle.ch_base.specs.declared.channel.ChanCall.TheVariants.{TakeHooks};
ghost use Rattle.ch_history.specs.Limits.{IsMoment};
ghost use Rattle.ch_protocol.specs.Asks.{Asked};
ghost use Rattle.ch_protocol.specs.declared.ask.Ask.TheVariants.{Chan};
ghost use Rattle.ch_desk.specs.OwnEntries.{Makes};
ghost use Rattle.ch_desk.specs.Views.{MayAsk};
ghost use Rattle.ch_webhooks.specs.Batching.{with_events};
ghost use Rattle.ch_batch.specs.Gathers.{AreTaken, IsGathered, taken};

use crate::batcher::Batcher;
use ch_base::{ChanAnswer, ChanCall, Memory};
use ch_desk::{Ask, Desk, Made, make};

impl Batcher {
    /// Takes the webhook events of each channel shard, ascending, and cuts them into batches at the moment `now`, in
    /// milliseconds. It makes room before each take, so no event is lost. Answers how many batches that makes.
    ///
    /// Where there is no memory, what was accepted stays, and the next call cuts it.
    pub fn gather<R, D: Desk<R>>(&mut self, rt: &R, desk: &mut D, now: u64) -> Result<u64, Memory>
        requires { IsMoment now }
        ensures { (asked : List Asked) × Makes asked (D.view desk.old) (D.view desk.new)
            × IsGathered self.old.state now (D.view desk.old).chan_shards asked result self.new.state }
    {
        let shards = desk.chan_shards();
        for shard in 0..shards {
            match self.take(rt, desk, shard, now) {
                Ok(()) => {}
                Err(memory) => return Err(memory),
            }
        }
        self.cut(now)
    }

    /// Takes the webhook events of one channel shard.
    fn take<R, D: Desk<R>>(
        &mut self,
        rt: &R,
        desk: &mut D,
        shard: u64,
        now: u64,
    ) -> Result<(), Memory>
        requires { MayAsk (D.view desk.old) (Chan shard (TakeHooks now)) }
        ensures { (asked : List Asked) × Makes asked (D.view desk.old) (D.view desk.new)
            × AreTaken (Chan shard (TakeHooks now) ∷ []) asked result × (self.new.state ≡ with_events self.old.state (taken asked)) }
    {
        let Ok(()) = self.reserve(1) else {
            return Err(Memory);
        };
        let ask = Ask::Chan {
            shard,
            call: ChanCall::TakeHooks { at: now },
        };
        match make(rt, desk, &ask) {
            Made::Chan(ChanAnswer::Hooks(events)) => {
                self.accept(events);
                Ok(())
            }
            Made::Memory => Err(Memory),
            _ => unreachable!(),
        }
    }
}

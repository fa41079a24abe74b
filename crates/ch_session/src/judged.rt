ghost use Rattle.std.specs.Prelude.{◌≡◌, ◌∷◌, [], IfOk};
ghost use Rattle.ch_protocol.specs.declared.ask.Ask.TheVariants.{Chan};

use crate::waiting::Waiting;
use ch_base::{ChanCall, Memory};
use ch_protocol::{Ask, AskList, Heard};
use std::alloc::Global;

/// What a message comes to: the answer, and what waits to be settled then.
#[derive(Drop)]
pub struct Judged {
    pub heard: Heard,
    pub waits: Waiting,
}

impl Judged {
    /// An answer after which nothing waits.
    pub fn plain(heard: Heard) -> Judged
        ensures { result ≡ record { heard = heard; waits = Waiting.Nothing } }
    {
        Judged {
            heard,
            waits: Waiting::Nothing,
        }
    }

    /// One call on a channel shard, which is waited for.
    pub fn call(alloc: Global, shard: u64, call: ChanCall, waits: Waiting) -> Result<Judged, Memory>
        ensures { IfOk result (λ j. j ≡ record { heard = Heard.Ask (Chan shard call ∷ []); waits = waits }) }
    {
        let mut asks = AskList::new(alloc);
        asks.push(Ask::Chan { shard, call })?;
        Ok(Judged {
            heard: Heard::Ask(asks),
            waits,
        })
    }
}

//! The thread that sends webhooks.
ghost use Rattle.std.specs.Prelude.{◌≡◌, List, IfOk};
ghost use Rattle.ch_batch.specs.Gathers.{takes};
ghost use Rattle.ch_desk.specs.OwnEntries.{Makes};
ghost use Rattle.ch_history.specs.Limits.{IsMoment};
ghost use Rattle.ch_house.specs.DeskViews.{view_of};
ghost use Rattle.ch_protocol.specs.Asks.{Asked, asks_of};
ghost use Rattle.ch_serve.specs.Webhooks.{Drops, Gathers, Rounds, SendsFor};

use ch_base::{ChanCall, Memory};
use ch_batch::{Batcher, Step, gathers_chain};
use ch_config::Config;
use ch_desk::{Ask, Desk, calls_chain, make};
use ch_edge::{Park, Pause};
use ch_house::{HouseDesk, names_tell_houses};
use ch_io::Post;
use ch_net::Link;
use std::alloc::Global;
use std::sync::Wait;

/// The webhooks of an app on their way, and where they are posted.
#[derive(Drop)]
pub struct Sending<P: Post> {
    pub batcher: Batcher,
    pub post: P,
}

/// The thread that takes the webhook events of the channel shards. Where they are sent, it posts them in batches, one
/// after another; else it drops them.
#[derive(Drop)]
pub struct WebhookThread<'a, P: Post, C> {
    pub desk: HouseDesk<'a>,
    pub sending: Option<Sending<P>>,
    pub clock: C,
}

impl<'a, P: Post, C> WebhookThread<'a, P, C> {
    /// So many rounds, with a rest after each in which nothing was to be done.
    pub fn run<R: Wait, L: Link>(&mut self, rt: &R, turns: u64)
    where
        C: Park<L>,
        ensures { Rounds turns self.old.sending self.old.desk self.new.desk }
    {
        names_tell_houses();
        match &mut self.sending {
            Some(sending) => {
                post_rounds::<R, L, P, C>(rt, &mut self.desk, sending, &mut self.clock, turns)
            }
            None => drop_rounds::<R, L, C>(rt, &mut self.desk, &mut self.clock, turns),
        }
    }
}

/// So many rounds of gathering and posting.
fn post_rounds<R: Wait, L: Link, P: Post, C: Park<L>>(
    rt: &R,
    desk: &mut HouseDesk<'_>,
    sending: &mut Sending<P>,
    clock: &mut C,
    turns: u64,
)
    ensures { Gathers (view_of desk.old) (view_of desk.new) sending.old.batcher.state sending.new.batcher.state }
{
    gathers_chain();
    calls_chain();
    for _turn in 0..turns {
        post_round::<R, L, P, C>(rt, desk, sending, clock);
    }
}

/// Gathers the events of the channel shards, and posts the lowest batch where it is due.
fn post_round<R: Wait, L: Link, P: Post, C: Park<L>>(
    rt: &R,
    desk: &mut HouseDesk<'_>,
    sending: &mut Sending<P>,
    clock: &mut C,
)
    ensures { Gathers (view_of desk.old) (view_of desk.new) sending.old.batcher.state sending.new.batcher.state }
{
    gathers_chain();
    let now = clock.now();
    let gathered = sending.batcher.gather(rt, desk, now);
    let step = sending.batcher.step(&mut sending.post, now);
    clock.park(pause_after(gathered, step));
}

/// How long the thread rests: a short while where it wanted memory, and not at all where a batch was tried.
fn pause_after(gathered: Result<u64, Memory>, step: Step) -> Pause {
    if gathered.is_err() {
        return Pause::Short;
    }
    match step {
        Step::Nothing | Step::Later(_) => Pause::Long,
        _ => Pause::None,
    }
}

/// So many rounds of taking events and dropping them.
fn drop_rounds<R: Wait, L: Link, C: Park<L>>(
    rt: &R,
    desk: &mut HouseDesk<'_>,
    clock: &mut C,
    turns: u64,
)
    ensures { Drops turns (view_of desk.old) (view_of desk.new) }
{
    calls_chain();
    for _turn in 0..turns {
        let now = clock.now();
        drop_events(rt, desk, now);
        clock.park(Pause::Long);
    }
}

/// Takes the events of each channel shard, ascending, and drops them.
fn drop_events<R: Wait>(rt: &R, desk: &mut HouseDesk<'_>, now: u64)
    requires { IsMoment now }
    ensures { (asked : List Asked) × (asks_of asked ≡ takes now (view_of desk.old).chan_shards)
        × Makes asked (view_of desk.old) (view_of desk.new) }
{
    calls_chain();
    let shards = <HouseDesk<'_> as Desk<R>>::chan_shards(desk);
    for shard in 0..shards {
        let ask = Ask::Chan {
            shard,
            call: ChanCall::TakeHooks { at: now },
        };
        let _ = make(rt, desk, &ask);
    }
}

/// The batcher of a configuration's app, of a server that started at the second `start`, with where it posts.
pub(crate) fn sending_of<P: Post + Drop>(
    alloc: Global,
    config: &Config,
    start: u64,
    post: Option<P>,
) -> Result<Option<Sending<P>>, Memory>
    ensures { IfOk result (λ sending. SendsFor config.now start post sending) }
{
    match post {
        Some(post) => {
            let batcher = Batcher::new(alloc, &config.key, &config.secret, start)?;
            Ok(Some(Sending { batcher, post }))
        }
        None => Ok(None),
    }
}

//! The run of all threads at one house.
ghost use Rattle.std.specs.Prelude.{◌≡◌, ◌<◌, ◌≤◌, ◌+◌, ◌^◌, ℕ, length, None, Some, IfOk, slice_index_or};
ghost use Rattle.ch_config.specs.Config.{IsConfig};
ghost use Rattle.ch_house.specs.Houses.{fresh_passes};
ghost use Rattle.ch_intake.specs.PassModels.{fresh_pass};
ghost use Rattle.ch_serve.specs.Served.{IsShardedBy, Worked};
ghost use Rattle.ch_serve.specs.Webhooks.{Rounds};

use crate::accepting::AcceptingThread;
use crate::bells::Bells;
use crate::ending::give_back;
use crate::numbered::Numbered;
use crate::posting::{Sending, WebhookThread};
use crate::starting::{Site, worker_threads};
use crate::threads::run_all;
use ch_base::Memory;
use ch_edge::{Accept, Park, Wake};
use ch_house::{HouseDesk, PassesList};
use ch_intake::IntakePasses;
use ch_io::Post;
use ch_net::Link;
use ch_worker::{NoGate, Worker};
use std::sync::Wait;
use std::thread::Threads;

/// The passes of the house and of the intake.
#[derive(Drop)]
pub(crate) struct Desks<L: Link> {
    pub passes: PassesList,
    pub slots: IntakePasses<Numbered<L>>,
}

/// What the threads have to do with the outside: where connections come in, the workers' clocks, the webhook thread's
/// clock and batches, and the bells.
#[derive(Drop)]
pub(crate) struct Ends<A: Accept, C: Park<A::Conn>, P: Post> {
    pub accept: A,
    pub clocks: Vec<C>,
    pub clock: C,
    pub sending: Option<Sending<P>>,
    pub bells: Bells<C::Waker>,
}

/// Runs all threads for so many turns, gives the passes of the house back, and answers the workers.
pub(crate) fn run_house<R, L, A, C, P>(
    rt: &R,
    site: &Site<'_, L>,
    desks: &mut Desks<L>,
    ends: Ends<A, C, P>,
    turns: u64,
) -> Result<Vec<Worker<L, NoGate>>, Memory>
where
    R: Wait + Threads + Sync,
    L: Link + Send,
    L::Wire: Send,
    A: Accept<Conn = L> + Send + Drop,
    C: Park<L> + Send + Drop,
    C::Waker: Send + Sync,
    P: Post + Drop,
    requires config { IsConfig site.now.config.now }
    requires clocks { length ends.clocks.items ≡ site.now.config.now.workers }
    requires turns { turns ≤ 2 ^ 48 }
    requires own { (desks.old.passes.house ≡ site.now.house.now) × (desks.old.slots.intake ≡ site.now.intake.now) }
    requires shards { IsShardedBy site.now.config.now site.now.house.now }
    requires size { length desks.old.passes.slots ≡ site.now.config.now.workers + 1 }
    requires passes { (i : ℕ) → i < site.now.config.now.workers + 1
        → slice_index_or desks.old.passes.slots i None ≡ Some (fresh_passes site.now.house.now i) }
    requires slots { (i : ℕ) → i < site.now.config.now.workers + 1
        → slice_index_or desks.old.slots.slots i None ≡ Some (fresh_pass site.now.intake.now i) }
    ensures house { desks.new.passes.house ≡ desks.old.passes.house }
    ensures worked { IfOk result (λ workers. Worked site.now.config.now turns site.now.house.now site.now.start workers.items desks.new.passes.slots
        (Rounds turns ends.sending)) }
{
    let Ends {
        accept,
        clocks,
        clock,
        sending,
        bells,
    } = ends;
    let number = site.config.workers;
    let room = Vec::with_capacity(site.alloc, clocks.len())?;
    let workers = worker_threads(site, &mut desks.passes, &mut desks.slots, clocks)?;
    let Some(own) = desks.passes.take(number) else {
        unreachable!()
    };
    let Some(pass) = desks.slots.take(number) else {
        unreachable!()
    };
    let webhooks = WebhookThread {
        desk: HouseDesk::new(site.house, own),
        sending,
        clock,
    };
    let accepting = AcceptingThread {
        accept,
        intake: site.intake,
        pass,
        numbered: 0,
    };
    let (workers, webhooks) = run_all(rt, &bells, workers, (accepting, webhooks), turns);
    let workers = give_back(&mut desks.passes, workers, room);
    let WebhookThread {
        desk,
        sending: _,
        clock: _,
    } = webhooks;
    desks.passes.give(desk.into_passes());
    Ok(workers)
}

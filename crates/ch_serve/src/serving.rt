//! A server from its start to its end.
ghost use Rattle.std.specs.Prelude.{◌≡◌, ◌≤◌, ◌+◌, ◌^◌, ◌⊎◌, [], length, None, Some, IfOk};
ghost use Rattle.ch_config.specs.Config.{IsConfig};
ghost use Rattle.ch_house.specs.Closes.{ClosedModel};
ghost use Rattle.ch_serve.specs.Served.{Served};

use crate::bells::Bells;
use crate::counting::has_each_turn;
use crate::posting::sending_of;
use crate::running::{Desks, Ends, run_house};
use crate::starting::Site;
use ch_base::Memory;
use ch_config::Config;
use ch_edge::{Accept, Park};
use ch_house::{House, HouseClosed};
use ch_intake::Intake;
use ch_io::Post;
use ch_net::Link;
use ch_pool::{Ran, WorkerList};
use std::alloc::Global;
use std::sync::Wait;
use std::thread::Threads;

/// The status for want of memory.
const MEMORY: u8 = 7;

/// Serves the connections that come in, for so many turns of each thread, and closes the house then.
///
/// There is a clock for each worker of the configuration, in order, and a last one for the webhook thread; the first
/// moment of the last one is the server's start. Webhooks are posted where there is a post, and else dropped. The status
/// is 0, or 7 for want of memory.
pub fn serve<R, A, C, P>(
    rt: &R,
    alloc: Global,
    config: &Config,
    accept: A,
    clocks: Vec<C>,
    post: Option<P>,
    turns: u64,
) -> Ran<A::Conn>
where
    R: Wait + Threads + Sync,
    A: Accept + Send + Drop,
    A::Conn: Send,
    <A::Conn as Link>::Wire: Send,
    C: Park<A::Conn> + Send + Drop,
    C::Waker: Send + Sync,
    P: Post + Drop,
    requires config { IsConfig config.now }
    requires clocks { length clocks.items ≡ config.now.workers + 1 }
    requires turns { turns ≤ 2 ^ 48 }
    ensures status { (result.status ≡ 0) ⊎ (result.status ≡ 7) }
    ensures served { result.status ≡ 0 → (closed : ClosedModel) × (result.closed ≡ Some closed)
        × Served config.now turns post result.workers closed }
    ensures otherwise { result.status ≡ 7 → (result.closed ≡ None) × (result.workers ≡ []) }
{
    match run_server(rt, alloc, config, (accept, clocks, post), turns) {
        Ok((closed, workers)) => Ran::well(closed, workers),
        Err(Memory) => Ran::ended(alloc, MEMORY),
    }
}

/// What a server leaves where it ended well: the closed house, and the workers.
fn run_server<R, L, A, C, P>(
    rt: &R,
    alloc: Global,
    config: &Config,
    given: (A, Vec<C>, Option<P>),
    turns: u64,
) -> Result<(HouseClosed, WorkerList<L>), Memory>
where
    R: Wait + Threads + Sync,
    L: Link + Send,
    L::Wire: Send,
    A: Accept<Conn = L> + Send + Drop,
    C: Park<L> + Send + Drop,
    C::Waker: Send + Sync,
    P: Post + Drop,
    requires config { IsConfig config.now }
    requires clocks { length given.1.items ≡ config.now.workers + 1 }
    requires turns { turns ≤ 2 ^ 48 }
    ensures { IfOk result (λ r. Served config.now turns given.2 r.1 r.0) }
{
    let (accept, mut clocks, post) = given;
    let bells = Bells::of(alloc, clocks.as_slice())?;
    let Some(mut clock) = clocks.pop() else {
        unreachable!()
    };
    let start = clock.now() / 1000;
    let callers = config.workers + 1;
    let (house, passes) = House::new(alloc, config.chan_shards, config.user_shards, callers)?;
    let (intake, slots) = Intake::new(alloc, callers)?;
    let site = Site {
        alloc,
        house: &house,
        intake: &intake,
        config,
        start,
    };
    let mut desks = Desks { passes, slots };
    let ends = Ends {
        accept,
        clocks,
        clock,
        sending: sending_of(alloc, config, start, post)?,
        bells,
    };
    let workers = run_house(rt, &site, &mut desks, ends, turns)?;
    let Desks { passes, slots: _ } = desks;
    let closed = house.close(passes);
    if has_each_turn(&closed, config, turns) {
        Ok((closed, WorkerList::from_vec(workers)))
    } else {
        Err(Memory)
    }
}

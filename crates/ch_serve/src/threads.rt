//! All threads of a server, at once.
ghost use Rattle.std.specs.Prelude.{◌+◌, ◌≤◌, ◌^◌, All};
ghost use Rattle.ch_serve.specs.Served.{AllTurned, IsSeated, Turned};
ghost use Rattle.ch_serve.specs.Webhooks.{Rounds};

use crate::accepting::AcceptingThread;
use crate::bells::Bells;
use crate::posting::WebhookThread;
use crate::working::WorkerThread;
use ch_edge::{Accept, Park, Wake};
use ch_io::Post;
use ch_net::Link;
use std::sync::Wait;
use std::thread::{Threads, for_each_mut, join};

/// Each of the workers turns in a thread of its own, so many times, while another thread accepts and a third sends webhooks.
pub(crate) fn run_all<'a, 'b, 'c, R, L, A, P, C>(
    rt: &R,
    bells: &Bells<C::Waker>,
    workers: Vec<WorkerThread<'a, L, C>>,
    others: (AcceptingThread<'b, A>, WebhookThread<'c, P, C>),
    turns: u64,
) -> (Vec<WorkerThread<'a, L, C>>, WebhookThread<'c, P, C>)
where
    R: Wait + Threads + Sync,
    L: Link + Send,
    L::Wire: Send,
    A: Accept<Conn = L> + Send + Drop,
    P: Post + Drop,
    C: Park<L> + Send + Drop,
    C::Waker: Send + Sync,
    requires numbered { others.0.numbered + turns ≤ 2 ^ 62 }
    requires desks { All IsSeated workers.items }
    ensures workers { AllTurned turns workers.entry.items result.0.items }
    ensures webhooks { Rounds turns others.entry.1.sending others.entry.1.desk result.1.desk }
{
    let (accepting, webhooks) = others;
    join(
        rt,
        move || -> Vec<WorkerThread<'_, L, C>>
            requires { All IsSeated workers.items }
            ensures { AllTurned turns workers.entry.items result.items }
        { work_for(rt, bells, workers, turns) },
        move || -> WebhookThread<'_, P, C>
            requires { accepting.numbered + turns ≤ 2 ^ 62 }
            ensures { Rounds turns webhooks.entry.sending webhooks.entry.desk result.desk }
        { accept_and_post(rt, bells, accepting, webhooks, turns) },
    )
}

/// The turns of the accepting thread, and beside them those of the webhook thread.
fn accept_and_post<'a, R, L, A, P, C>(
    rt: &R,
    bells: &Bells<C::Waker>,
    accepting: AcceptingThread<'_, A>,
    webhooks: WebhookThread<'a, P, C>,
    turns: u64,
) -> WebhookThread<'a, P, C>
where
    R: Wait + Threads + Sync,
    L: Link + Send,
    L::Wire: Send,
    A: Accept<Conn = L> + Send + Drop,
    P: Post + Drop,
    C: Park<L> + Send + Drop,
    C::Waker: Send + Sync,
    requires { accepting.numbered + turns ≤ 2 ^ 62 }
    ensures { Rounds turns webhooks.entry.sending webhooks.entry.desk result.desk }
{
    let ((), webhooks) = join(
        rt,
        move ||
            requires { accepting.numbered + turns ≤ 2 ^ 62 }
        { accept_for(rt, bells, accepting, turns) },
        move || -> WebhookThread<'_, P, C>
            ensures { Rounds turns webhooks.entry.sending webhooks.entry.desk result.desk }
        { post_for::<R, L, P, C>(rt, webhooks, turns) },
    );
    webhooks
}

/// The turns of the accepting thread.
fn accept_for<R: Wait, A: Accept + Drop, W: Wake + Drop>(
    rt: &R,
    bells: &Bells<W>,
    mut accepting: AcceptingThread<'_, A>,
    turns: u64,
)
    requires { accepting.numbered + turns ≤ 2 ^ 62 }
{
    accepting.run(rt, bells, turns);
}

/// The turns of the webhook thread.
fn post_for<'a, R: Wait, L: Link, P: Post + Drop, C: Park<L> + Drop>(
    rt: &R,
    mut webhooks: WebhookThread<'a, P, C>,
    turns: u64,
) -> WebhookThread<'a, P, C>
    ensures { Rounds turns webhooks.entry.sending webhooks.entry.desk result.desk }
{
    webhooks.run::<R, L>(rt, turns);
    webhooks
}

/// The turns of the workers.
fn work_for<'a, R, L, C>(
    rt: &R,
    bells: &Bells<C::Waker>,
    mut workers: Vec<WorkerThread<'a, L, C>>,
    turns: u64,
) -> Vec<WorkerThread<'a, L, C>>
where
    R: Wait + Threads + Sync,
    L: Link + Send,
    L::Wire: Send,
    C: Park<L> + Send + Drop,
    C::Waker: Send + Sync,
    requires { All IsSeated workers.items }
    ensures { AllTurned turns workers.entry.items result.items }
{
    work_in_threads(rt, bells, workers.as_mut_slice(), turns);
    workers
}

/// The turns of the workers, each worker's in a thread of its own.
fn work_in_threads<R, L, C>(
    rt: &R,
    bells: &Bells<C::Waker>,
    workers: &mut [WorkerThread<'_, L, C>],
    turns: u64,
)
where
    R: Wait + Threads + Sync,
    L: Link + Send,
    L::Wire: Send,
    C: Park<L> + Send + Drop,
    C::Waker: Send + Sync,
    requires { All IsSeated workers.old }
    ensures { AllTurned turns workers.old workers.new }
{
    let threads = workers.len().max(1);
    let turn = move |_place: usize, worker: &mut WorkerThread<'_, L, C>|
        requires { IsSeated worker.now }
        ensures { Turned turns worker.entry.now worker.exit.now }
    { worker.run(rt, bells, turns) };
    for_each_mut(rt, workers, threads, &turn);
}

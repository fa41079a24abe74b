//! The threads of the workers, once they have ended.
ghost use Rattle.std.specs.Prelude.{◌≡◌, ◌<◌, ◌≤◌, ℕ, [], length, None, Some, slice_get, slice_index_or, vec_capacity};
ghost use Rattle.ch_house.specs.Houses.{ArePassesOf};
ghost use Rattle.ch_serve.specs.GivenBack.{GivenBack};
ghost use Rattle.ch_serve.specs.Served.{Seat};

use crate::working::WorkerThread;
use ch_edge::Park;
use ch_house::PassesList;
use ch_net::Link;
use ch_worker::{NoGate, Worker};

/// Gives the passes of each thread back to their list, and answers the workers, in order.
pub(crate) fn give_back<L: Link, C: Park<L> + Drop>(
    passes: &mut PassesList,
    threads: Vec<WorkerThread<'_, L, C>>,
    mut workers: Vec<Worker<L, NoGate>>,
) -> Vec<Worker<L, NoGate>>
    requires own { (i : ℕ) (t : Seat) → slice_get threads.items i ≡ Some t → ArePassesOf passes.old.house i t.passes }
    requires empty { (i : ℕ) → i < length threads.items → slice_index_or passes.old.slots i None ≡ None }
    requires size { length threads.items ≤ length passes.old.slots }
    requires room { (workers.items ≡ []) × (length threads.items ≤ vec_capacity workers) }
    ensures { GivenBack (length threads.entry.items) threads.entry.items passes.old passes.new result.items }
{
    let count = threads.len();
    let mut threads = threads.into_iter();
    for _place in 0..count {
        let Some(thread) = threads.next() else {
            unreachable!()
        };
        let WorkerThread {
            desk,
            worker,
            arrivals: _,
        } = thread;
        passes.give(desk.into_passes());
        workers.push_reserved(worker);
    }
    workers
}

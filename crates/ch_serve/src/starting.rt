//! The threads of the workers, before they start.
ghost use Rattle.std.specs.Prelude.{◌≡◌, ◌<◌, ◌≤◌, ◌+◌, ℕ, length, IfOk, OnOk, None, Some, slice_get, slice_index_or};
ghost use Rattle.ch_config.specs.Config.{IsConfig};
ghost use Rattle.ch_house.specs.Houses.{fresh_passes};
ghost use Rattle.ch_intake.specs.PassModels.{fresh_pass};
ghost use Rattle.ch_worker.specs.Workers.{new_worker};
ghost use Rattle.ch_serve.specs.Served.{Seat, seat};

use crate::arrivals::IntakeArrivals;
use crate::desk::NotedDesk;
use crate::numbered::Numbered;
use crate::working::WorkerThread;
use ch_base::Memory;
use ch_config::Config;
use ch_edge::Park;
use ch_house::{House, Passes, PassesList};
use ch_intake::{Intake, IntakePass, IntakePasses};
use ch_net::Link;
use ch_worker::{NoGate, Worker};
use std::alloc::Global;

/// Where the threads work: the allocator, the house of shards, the intake, the configuration, and the second of the start.
#[derive(Drop)]
pub(crate) struct Site<'a, L: Link> {
    pub alloc: Global,
    pub house: &'a House,
    pub intake: &'a Intake<Numbered<L>>,
    pub config: &'a Config,
    pub start: u64,
}

/// A worker's thread for each of the clocks, in order, with the passes of its number.
pub(crate) fn worker_threads<'a, L: Link, C: Park<L> + Drop>(
    site: &Site<'a, L>,
    passes: &mut PassesList,
    slots: &mut IntakePasses<Numbered<L>>,
    clocks: Vec<C>,
) -> Result<Vec<WorkerThread<'a, L, C>>, Memory>
    requires config { IsConfig site.now.config.now }
    requires own { (passes.old.house ≡ site.now.house.now) × (slots.old.intake ≡ site.now.intake.now) }
    requires passes { (i : ℕ) → i < length clocks.items → slice_index_or passes.old.slots i None ≡ Some (fresh_passes site.now.house.now i) }
    requires slots { (i : ℕ) → i < length clocks.items → slice_index_or slots.old.slots i None ≡ Some (fresh_pass site.now.intake.now i) }
    ensures own { (passes.new.house ≡ passes.old.house) × (slots.new.intake ≡ slots.old.intake) }
    ensures size { length passes.new.slots ≡ length passes.old.slots }
    ensures taken { OnOk result ((i : ℕ) → i < length clocks.items → slice_index_or passes.new.slots i None ≡ None) }
    ensures left { OnOk result ((i : ℕ) → length clocks.items ≤ i → slice_index_or passes.new.slots i None ≡ slice_index_or passes.old.slots i None) }
    ensures slots_left { OnOk result ((i : ℕ) → length clocks.items ≤ i → slice_index_or slots.new.slots i None ≡ slice_index_or slots.old.slots i None) }
    ensures count { IfOk result (λ threads. length threads.items ≡ length clocks.items) }
    ensures threads { IfOk result (λ threads. (i : ℕ) (t : Seat) → slice_get threads.items i ≡ Some t
        → t ≡ seat (new_worker site.now.config.now site.now.start) (fresh_passes site.now.house.now i)) }
{
    let count = clocks.len() as u64;
    let mut threads = Vec::with_capacity(site.alloc, clocks.len())?;
    let mut clocks = clocks.into_iter();
    for number in 0..count {
        let Some(clock) = clocks.next() else {
            unreachable!()
        };
        let Some(own) = passes.take(number) else {
            unreachable!()
        };
        let Some(slot) = slots.take(number) else {
            unreachable!()
        };
        let thread = worker_thread(site, own, slot, clock)?;
        threads.push_reserved(thread);
    }
    Ok(threads)
}

/// A worker's thread with the passes of its number.
fn worker_thread<'a, L: Link, C: Park<L> + Drop>(
    site: &Site<'a, L>,
    passes: Passes,
    slot: IntakePass<Numbered<L>>,
    clock: C,
) -> Result<WorkerThread<'a, L, C>, Memory>
    requires config { IsConfig site.now.config.now }
    requires own { (passes.house ≡ site.now.house.now) × (slot.intake ≡ site.now.intake.now) }
    ensures { IfOk result (λ thread. thread ≡ seat (new_worker site.now.config.now site.now.start) passes) }
{
    let worker = Worker::new(site.alloc, site.config, site.start, NoGate)?;
    Ok(WorkerThread {
        desk: NotedDesk::new(site.house, passes),
        worker,
        arrivals: IntakeArrivals::new(site.intake, slot, clock),
    })
}

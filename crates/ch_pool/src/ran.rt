//! How a run of workers ended.
ghost use Rattle.std.specs.Prelude.{◌≡◌, [], None, Some};

use ch_base::Items;
use ch_house::HouseClosed;
use ch_net::Link;
use ch_worker::{NoGate, Worker};
use std::alloc::Global;

/// Workers, in the order of their numbers. Contracts see them as a list.
pub type WorkerList<L> = Items<Worker<L, NoGate>>;

/// How a run of workers over links of one kind ended.
#[derive(Drop)]
pub struct Ran<L: Link> {
    /// The status that the program ends with: 0 where all went well.
    pub status: u8,
    /// What was counted of the house at its closing; None but with status 0.
    pub closed: Option<HouseClosed>,
    /// The workers; none but with status 0.
    pub workers: WorkerList<L>,
}

impl<L: Link> Ran<L> {
    /// A run that went well.
    pub fn well(closed: HouseClosed, workers: WorkerList<L>) -> Ran<L>
        ensures status { result.status ≡ 0 }
        ensures closed { result.closed ≡ Some closed }
        ensures workers { result.workers ≡ workers }
    {
        Ran {
            status: 0,
            closed: Some(closed),
            workers,
        }
    }

    /// A run that ended otherwise, with this status.
    pub fn ended(alloc: Global, status: u8) -> Ran<L>
        ensures status { result.status ≡ status }
        ensures closed { result.closed ≡ None }
        ensures workers { result.workers ≡ [] }
    {
        Ran {
            status,
            closed: None,
            workers: Items::new(alloc),
        }
    }
}

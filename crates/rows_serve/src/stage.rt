//! Clocks that wait for one another, so that what a test sees is the same whatever the schedule.
use ch_base::Memory;
use ch_edge::{MemPark, NoWaker, Park};
use ch_io::Clock;
use ch_net::Link;
use std::sync::atomic::{AtomicU64, Ordering};

/// How often a clock looks before it gives up, which the test then sees.
const LOOKS: u64 = 1_000_000_000;

/// How far each worker's clock is, whether the connection was handed on, and whether a clock gave up.
#[derive(Drop)]
pub struct Stage {
    first: AtomicU64,
    second: AtomicU64,
    pub handed_on: AtomicU64,
    late: AtomicU64,
}

impl Stage {
    pub fn new() -> Stage {
        Stage {
            first: AtomicU64::new(0),
            second: AtomicU64::new(0),
            handed_on: AtomicU64::new(0),
            late: AtomicU64::new(0),
        }
    }

    /// Whether a clock gave up.
    pub fn is_late(&self) -> bool {
        self.late.load(Ordering::SeqCst) != 0
    }

    /// Whether both workers' clocks gave so many moments, and the flag stands so high.
    fn has(&self, moments: u64, flag: u64) -> bool {
        self.first.load(Ordering::SeqCst) >= moments
            && self.second.load(Ordering::SeqCst) >= moments
            && self.handed_on.load(Ordering::SeqCst) >= flag
    }

    fn wait_for(&self, moments: u64, flag: u64) {
        for _ in 0..LOOKS {
            if self.has(moments, flag) {
                return;
            }
        }
        self.late.store(1, Ordering::SeqCst);
    }
}

/// Whose clock it is.
#[derive(Clone, Copy, Debug, PartialEq, Eq)]
pub enum Owner {
    FirstWorker,
    SecondWorker,
    Webhooks,
}

/// A clock that stands at 0. A worker's waits at its first moment for the other worker's and until the connection was
/// handed on. That of the webhook thread waits at its second moment, which is the first after the start, until both
/// workers' clocks gave six.
#[derive(Drop)]
pub struct StagedClock<'a> {
    pub clock: MemPark,
    pub stage: &'a Stage,
    pub owner: Owner,
    pub calls: u64,
}

impl Clock for StagedClock<'_> {
    ghost use Rattle.std.specs.Prelude.{Some};

    ghost coming = { λ c. Some c.clock.clock };

    fn now(&mut self) -> u64 {
        self.calls = self.calls.saturating_add(1);
        match self.owner {
            Owner::FirstWorker => self.stage.first.store(self.calls, Ordering::SeqCst),
            Owner::SecondWorker => self.stage.second.store(self.calls, Ordering::SeqCst),
            Owner::Webhooks => {}
        }
        if self.owner == Owner::Webhooks {
            if self.calls == 2 {
                self.stage.wait_for(6, 1);
            }
        } else if self.calls == 1 {
            self.stage.wait_for(1, 1);
        }
        self.clock.now()
    }
}

impl<L: Link> Park<L> for StagedClock<'_> {
    type Waker = NoWaker;

    fn waker(&self) -> Result<NoWaker, Memory> {
        Ok(NoWaker)
    }
}

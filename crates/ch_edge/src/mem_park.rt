ghost use Rattle.std.specs.Prelude.{◌≡◌};

use crate::park::{Park, Wake};
use ch_base::Memory;
use ch_io::{Clock, MemClock};
use ch_net::Link;

/// A clock over memory whose rests end at once. Contracts see the moments that are left.
#[derive(Debug, Drop)]
pub struct MemPark {
    clock: MemClock,
}

/// Nobody to wake.
#[derive(Clone, Copy, Debug)]
pub struct NoWaker;

impl Wake for NoWaker {
    fn wake(&self) {}
}

impl MemPark {
    /// Gives the moments of this clock.
    pub fn new(clock: MemClock) -> MemPark
        ensures { result.clock ≡ clock }
    {
        MemPark { clock }
    }
}

impl Clock for MemPark {
    ghost use Rattle.std.specs.Prelude.{Some};

    ghost coming = { λ c. Some c.clock };

    fn now(&mut self) -> u64 {
        self.clock.now()
    }
}

impl<L: Link> Park<L> for MemPark {
    type Waker = NoWaker;

    fn waker(&self) -> Result<NoWaker, Memory> {
        Ok(NoWaker)
    }
}

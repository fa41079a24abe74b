ghost use Rattle.std.specs.Prelude.{◌≡◌, ◌≤◌, All};
ghost use Rattle.ch_base.specs.declared.limits.TheConstants.{LATEST_MOMENT};

use crate::clock::Clock;
use std::marker::Model;

/// A clock that gives moments of a list, one after another, and then the last of them again and again: 0
/// where there was none. Contracts see the moments that are left.
#[derive(Debug, Drop)]
pub struct MemClock {
    moments: Vec<u64>,
    next: usize,
    last: u64,
}

impl Model for MemClock {
    ghost use Rattle.std.specs.Prelude.{ℕ, List, ◌≤◌, drop, All};
    ghost use Rattle.ch_base.specs.declared.limits.TheConstants.{LATEST_MOMENT};

    ghost Value = { List ℕ };

    ghost view = { λ c. drop c.next c.moments.items };

    ghost invariant = { λ c. (c.last ≤ LATEST_MOMENT) × All (λ m. m ≤ LATEST_MOMENT) c.moments.items };
}

impl MemClock {
    /// A clock that gives these moments, each at most `LATEST_MOMENT`.
    pub fn new(moments: Vec<u64>) -> MemClock
        requires { All (λ m. m ≤ LATEST_MOMENT) moments.items }
        ensures { result ≡ moments.items }
    {
        MemClock {
            moments,
            next: 0,
            last: 0,
        }
    }
}

impl Clock for MemClock {
    ghost use Rattle.std.specs.Prelude.{Some};

    ghost coming = { λ c. Some c };

    fn now(&mut self) -> u64 {
        if let Some(moment) = self.moments.get(self.next) {
            self.last = *moment;
            self.next += 1;
        }
        self.last
    }
}

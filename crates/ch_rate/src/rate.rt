ghost use Rattle.std.specs.Prelude.{◌≡◌, ◌≤◌, ◌∷◌, ◌++◌, [], ℕ, List};
ghost use Rattle.ch_base.specs.declared.limits.TheConstants.{LATEST_MOMENT};

use crate::limits::{LIMIT, WINDOW};
use std::marker::Model;

/// How many client events a connection may send: ten in a second (Pusher Channels protocol, client events).
///
/// Contracts see the last ten moments at which one was accepted, the oldest first, or all where there are
/// fewer. The clauses speak of each list of accepted moments that these stand for.
#[derive(Debug, Drop)]
pub struct Rate {
    // The accepted moments stand at the array's end.
    moments: [u64; LIMIT],
    kept: usize,
}

impl Model for Rate {
    ghost use Rattle.std.specs.Prelude.{ℕ, ◌-◌, ◌≤◌, List, drop};
    ghost use Rattle.ch_rate.specs.declared.limits.TheConstants.{LIMIT};

    ghost Value = { List ℕ };

    ghost view = { λ r. drop (LIMIT - r.kept) r.moments };

    ghost invariant = { λ r. r.kept ≤ LIMIT };
}

impl Rate {
    ghost use Rattle.ch_rate.specs.Rate.{IsRateOf, rate_allows};

    /// A rate that has accepted nothing.
    pub fn new() -> Rate
        ensures { IsRateOf result [] }
    {
        Rate {
            moments: [0; LIMIT],
            kept: 0,
        }
    }

    /// Whether one more client event is allowed at the moment `now`.
    ///
    /// It isn't exactly where [`LIMIT`] were accepted, and `now` is below the first of the last ones plus [`WINDOW`].
    pub fn allowed(&self, now: u64) -> bool
        requires { now ≤ LATEST_MOMENT }
        ensures { (accepted : List ℕ) → IsRateOf self.now accepted → result ≡ rate_allows accepted now }
    {
        self.kept < LIMIT || now.saturating_sub(self.moments[0]) >= WINDOW
    }

    /// Notes that a client event was accepted at the moment `now`.
    pub fn accept(&mut self, now: u64)
        requires { now ≤ LATEST_MOMENT }
        ensures { (accepted : List ℕ) → IsRateOf self.old accepted → IsRateOf self.new (accepted ++ now ∷ []) }
    {
        self.moments.rotate_left(1);
        self.moments[LIMIT - 1] = now;
        self.kept = LIMIT.min(self.kept + 1);
    }
}

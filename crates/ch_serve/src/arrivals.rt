//! The connections that a worker's thread takes from the intake.
ghost use Rattle.std.specs.Prelude.{◌≡◌, ◌≤◌};
ghost use Rattle.ch_base.specs.declared.limits.TheConstants.{LATEST_MOMENT};

use crate::numbered::Numbered;
use ch_edge::{Park, Pause};
use ch_intake::{Intake, IntakePass};
use ch_net::{Arrival, Arrivals, Link};
use std::sync::Wait;

/// A worker's connections, with the clock and the rest of its thread: those of the intake, each of which the thread takes
/// on. A link is made by the thread that accepts, and ends the rests of the thread that took it from here on.
#[derive(Drop)]
pub struct IntakeArrivals<'a, L: Link, P: Park<L>> {
    intake: &'a Intake<Numbered<L>>,
    pass: IntakePass<Numbered<L>>,
    park: P,
    blanks: u64,
    ghost own: { pass.intake ≡ intake.now },
}

impl<'a, L: Link, P: Park<L>> IntakeArrivals<'a, L, P> {
    /// The connections of the caller that has this pass of the intake.
    pub fn new(
        intake: &'a Intake<Numbered<L>>,
        pass: IntakePass<Numbered<L>>,
        park: P,
    ) -> IntakeArrivals<'a, L, P>
        requires { pass.intake ≡ intake.now }
    {
        IntakeArrivals {
            intake,
            pass,
            park,
            blanks: 0,
        }
    }

    /// The moment now, in milliseconds, at most `LATEST_MOMENT`.
    pub fn now(&mut self) -> u64
        ensures { result ≤ LATEST_MOMENT }
    {
        self.park.now()
    }

    /// Rests until a socket is ready or the thread is woken, at most for the pause.
    pub fn rest(&mut self, pause: Pause) {
        self.park.park(pause);
    }
}

impl<'a, L: Link, P: Park<L>> Arrivals for IntakeArrivals<'a, L, P> {
    ghost use Rattle.std.specs.Prelude.{None};

    type Conn = L;

    ghost told = { λ a. record { left = None; blanks = a.blanks } };

    fn next<R: Wait>(&mut self, rt: &R) -> Option<Arrival<L>> {
        match self.intake.pop(rt, &mut self.pass) {
            Some(numbered) => {
                let Numbered { mut arrival } = numbered;
                self.park.watch(&mut arrival.link);
                Some(arrival)
            }
            None => {
                self.blanks = self.blanks.saturating_add(1);
                None
            }
        }
    }
}

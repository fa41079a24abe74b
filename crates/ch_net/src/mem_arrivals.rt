ghost use Rattle.std.specs.Prelude.{◌≡◌, Some, All};
ghost use Rattle.ch_history.specs.Limits.{IsSocket};

use crate::arrivals::{Arrival, Arrivals};
use crate::link::Link;
use std::alloc::Global;
use std::marker::Model;
use std::sync::Wait;
use std::vec::IntoIter;

/// Arrivals over memory. It tells those that are left.
#[derive(Drop)]
pub struct MemArrivals<C> {
    left: IntoIter<Arrival<C>, Global>,
    blank_calls: Vec<usize>,
    calls: usize,
    blanks: u64,
}

impl<C> Model for MemArrivals<C> {
    ghost use Rattle.std.specs.Prelude.{Some, All};
    ghost use Rattle.std.specs.Vec.Iter.{into_iter_items};
    ghost use Rattle.ch_net.specs.Arriving.{ArrivalsTold};
    ghost use Rattle.ch_history.specs.Limits.{IsSocket};

    ghost Value = { ArrivalsTold C };

    ghost view = { λ a. record { left = Some (into_iter_items a.left); blanks = a.blanks } };

    ghost invariant = { λ a. All (λ x. IsSocket x.number) (into_iter_items a.left) };
}

impl<C> MemArrivals<C> {
    /// These connections come in, in order, but none at the calls with the blank numbers, which count
    /// from 1.
    pub fn new(arrivals: Vec<Arrival<C>>, blank_calls: Vec<usize>) -> MemArrivals<C>
        requires { All (λ x. IsSocket x.number) arrivals.items }
        ensures { result ≡ record { left = Some arrivals.items; blanks = 0 } }
    {
        MemArrivals {
            left: arrivals.into_iter(),
            blank_calls,
            calls: 0,
            blanks: 0,
        }
    }
}

impl<C: Link> Arrivals for MemArrivals<C> {
    type Conn = C;

    ghost told = { λ a. a };

    fn next<R: Wait>(&mut self, _rt: &R) -> Option<Arrival<C>> {
        self.calls = self.calls.saturating_add(1);
        if !self.blank_calls.contains(&self.calls) {
            if let Some(arrival) = self.left.next() {
                return Some(arrival);
            }
        }
        self.blanks = self.blanks.saturating_add(1);
        None
    }
}

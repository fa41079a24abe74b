ghost use Rattle.std.specs.Prelude.{◌≡◌, All};
ghost use Rattle.ch_edge.specs.Ends.{IsNewLink};

use crate::dial::{Dial, Dialed};
use ch_net::Link;
use std::alloc::Global;
use std::marker::Model;
use std::vec::IntoIter;

/// Connections that are dialled, over memory. Contracts see its count of faults.
#[derive(Drop)]
pub struct MemDial<L: Link> {
    left: IntoIter<L, Global>,
    failing: Vec<usize>,
    calls: usize,
    faults: u64,
}

impl<L: Link> Model for MemDial<L> {
    ghost use Rattle.std.specs.Prelude.{ℕ, All};
    ghost use Rattle.std.specs.Vec.Iter.{into_iter_items};
    ghost use Rattle.ch_edge.specs.Ends.{IsNewLink};

    ghost Value = { ℕ };

    ghost view = { λ d. d.faults };

    ghost invariant = { λ d. All (λ link. IsNewLink (L.told link)) (into_iter_items d.left) };
}

impl<L: Link> MemDial<L> {
    /// Gives these new links, in order, and fails where none is left. The calls with the failing numbers, counted from 1,
    /// fail too.
    pub fn new(links: Vec<L>, failing: Vec<usize>) -> MemDial<L>
        requires { All (λ link. IsNewLink (L.told link)) links.items }
        ensures { result ≡ 0 }
    {
        MemDial {
            left: links.into_iter(),
            failing,
            calls: 0,
            faults: 0,
        }
    }
}

impl<L: Link> Dial for MemDial<L> {
    type Conn = L;

    ghost faults = { λ d. d };

    fn dial(&mut self) -> Dialed<L> {
        self.calls = self.calls.saturating_add(1);
        if !self.failing.contains(&self.calls) {
            if let Some(link) = self.left.next() {
                return Dialed::Made(link);
            }
        }
        self.faults = self.faults.saturating_add(1);
        Dialed::Failed
    }
}

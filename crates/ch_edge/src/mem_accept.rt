ghost use Rattle.std.specs.Prelude.{◌≡◌, All};
ghost use Rattle.ch_io.specs.Counts.{nothing_counted};
ghost use Rattle.ch_edge.specs.Ends.{IsNewLink};

use crate::accept::{Accept, Accepted};
use ch_io::Counts;
use ch_net::Link;
use std::alloc::Global;
use std::marker::Model;
use std::vec::IntoIter;

/// Connections that come in, over memory. Contracts see its counts.
#[derive(Drop)]
pub struct MemAccept<L: Link> {
    left: IntoIter<L, Global>,
    failing: Vec<usize>,
    stalling: Vec<usize>,
    calls: usize,
    counts: Counts,
}

impl<L: Link> Model for MemAccept<L> {
    ghost use Rattle.std.specs.Prelude.{All};
    ghost use Rattle.std.specs.Vec.Iter.{into_iter_items};
    ghost use Rattle.ch_io.specs.declared.counts.Counts.{Counts};
    ghost use Rattle.ch_edge.specs.Ends.{IsNewLink};

    ghost Value = { Counts };

    ghost view = { λ a. a.counts };

    ghost invariant = { λ a. All (λ link. IsNewLink (L.told link)) (into_iter_items a.left) };
}

impl<L: Link> MemAccept<L> {
    /// These new links come in, in order, and then none more. The calls with the failing numbers, counted from 1, fail,
    /// and of the others those with the stalling numbers ask for patience.
    pub fn new(links: Vec<L>, failing: Vec<usize>, stalling: Vec<usize>) -> MemAccept<L>
        requires { All (λ link. IsNewLink (L.told link)) links.items }
        ensures { result ≡ nothing_counted }
    {
        MemAccept {
            left: links.into_iter(),
            failing,
            stalling,
            calls: 0,
            counts: Counts::new(),
        }
    }
}

impl<L: Link> Accept for MemAccept<L> {
    type Conn = L;

    ghost counts = { λ a. a };

    fn accept(&mut self) -> Accepted<L> {
        self.calls = self.calls.saturating_add(1);
        if self.failing.contains(&self.calls) {
            self.counts.count_fault();
            return Accepted::Failed;
        }
        if !self.stalling.contains(&self.calls) {
            if let Some(link) = self.left.next() {
                return Accepted::Made(link);
            }
        }
        self.counts.count_stall();
        Accepted::NotYet
    }
}

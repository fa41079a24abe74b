//! How threads wake one another.
use ch_base::Memory;
use ch_edge::{Park, Wake};
use ch_net::Link;
use std::alloc::Global;

/// The bells of the workers' threads, in the order of their numbers, and then that of the webhook thread.
#[derive(Drop)]
pub struct Bells<W: Wake + Drop> {
    wakers: Vec<W>,
}

impl<W: Wake + Drop> Bells<W> {
    /// The bells of the threads with these clocks.
    pub fn of<L: Link, C: Park<L, Waker = W>>(
        alloc: Global,
        clocks: &[C],
    ) -> Result<Bells<W>, Memory> {
        let mut wakers = Vec::new(alloc);
        for clock in clocks {
            wakers.push(clock.waker()?)?;
        }
        Ok(Bells { wakers })
    }

    /// Ends the rest of every thread but the one with this number.
    pub fn ring_others(&self, number: u64) {
        for (place, waker) in self.wakers.iter().enumerate() {
            if place as u64 != number {
                waker.wake();
            }
        }
    }
}

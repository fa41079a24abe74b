ghost use Rattle.std.specs.Prelude.{◌≡◌, ℕ, ◌<◌, ◌≤◌, ◌++◌, All, slice_index_or, OnOk};
ghost use Rattle.ch_base.specs.declared.limits.TheConstants.{MAX_CALLERS};
ghost use Rattle.ch_history.specs.Deliveries.{for_owner};
ghost use Rattle.ch_outbox.specs.Outbox.{frames_of, spare_of};
ghost use Rattle.ch_outbox.specs.Room.{count_for, HasRoom};

use crate::outbox::Outbox;
use ch_base::{MAX_CALLERS, Memory};
use ch_history::Delivery;

/// Owners have numbers below this.
const OWNERS: usize = MAX_CALLERS as usize;

impl Outbox {
    /// Makes room for the frames of each owner. No list changes, also where there is no memory.
    pub fn reserve_for(&mut self, made: &[Delivery]) -> Result<(), Memory>
        requires { All (λ d. d.owner < MAX_CALLERS) made.now }
        ensures frames { (w : ℕ) → frames_of self.new w ≡ frames_of self.old w }
        ensures room { OnOk result (HasRoom self.new made.now) }
    {
        let counts = owner_counts(made);
        for owner in 0..OWNERS {
            self.reserve_some(owner as u64, counts[owner])?;
        }
        Ok(())
    }

    /// Makes room for n more frames of the owner, where there are any.
    fn reserve_some(&mut self, owner: u64, n: u64) -> Result<(), Memory>
        requires { owner < MAX_CALLERS }
        ensures frames { (w : ℕ) → frames_of self.new w ≡ frames_of self.old w }
        ensures spare { (w : ℕ) → spare_of self.old w ≤ spare_of self.new w }
        ensures room { OnOk result (n ≤ spare_of self.new owner) }
    {
        if n == 0 {
            return Ok(());
        }
        self.reserve(owner, n)
    }

    /// Moves each frame to the end of its owner's frames. It takes no memory.
    pub fn deliver(&mut self, mut made: Vec<Delivery>)
        requires owners { All (λ d. d.owner < MAX_CALLERS) made.items }
        requires room { HasRoom self.old made.items }
        ensures { (w : ℕ) → frames_of self.new w ≡ frames_of self.old w ++ for_owner w made.items }
    {
        made.reverse();
        while let Some(delivery) = made.pop() {
            let Delivery { owner, item } = delivery;
            self.put(owner, item);
        }
    }
}

/// How many of the frames each owner hands over.
fn owner_counts(made: &[Delivery]) -> [u64; OWNERS]
    requires { All (λ d. d.owner < MAX_CALLERS) made.now }
    ensures { (w : ℕ) → w < MAX_CALLERS → slice_index_or result w 0 ≡ count_for w made.now }
{
    let mut counts = [0; OWNERS];
    for delivery in made {
        counts[delivery.owner as usize] += 1;
    }
    counts
}

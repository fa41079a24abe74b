ghost use Rattle.std.specs.Prelude.{◌≡◌, ◌≢◌, ℕ, ◌<◌, ◌≤◌, [], OnOk, vec_len};

use crate::queue::Queue;
use ch_base::{FrameList, Memory, Shared};
use std::alloc::Global;
use std::marker::Model;

/// The frames that wait for each owner, a number below `MAX_CALLERS`.
#[derive(Drop)]
pub struct Outbox {
    alloc: Global,
    queues: Vec<Queue>,
}

impl Model for Outbox {
    ghost use Rattle.std.specs.Prelude.{List};
    ghost use Rattle.ch_outbox.specs.Outbox.{Waiting};

    ghost Value = { List Waiting };

    ghost view = { λ o. o.queues.items };
}

impl Outbox {
    ghost use Rattle.ch_outbox.specs.Outbox.{row_of, frames_of, spare_of, Puts};

    /// An outbox in which nothing waits. It takes no memory.
    pub fn new(alloc: Global) -> Outbox
        ensures { (w : ℕ) → frames_of result w ≡ [] }
    {
        Outbox {
            alloc,
            queues: Vec::new(alloc),
        }
    }

    /// Makes room for n more frames of the owner. No list changes and no spare room falls, also where
    /// there is no memory.
    pub fn reserve(&mut self, owner: u64, n: u64) -> Result<(), Memory>
        requires { owner < MAX_CALLERS }
        ensures frames { (w : ℕ) → frames_of self.new w ≡ frames_of self.old w }
        ensures spare { (w : ℕ) → spare_of self.old w ≤ spare_of self.new w }
        ensures room { OnOk result (n ≤ spare_of self.new owner) }
    {
        let owner = owner as usize;
        grow(self.alloc, &mut self.queues, owner)?;
        self.queues[owner].reserve(n as usize)
    }

    /// Adds a frame at the end of the owner's. It takes no memory.
    pub fn put(&mut self, owner: u64, item: Shared)
        requires owner { owner < MAX_CALLERS }
        requires room { 0 < spare_of self.old owner }
        ensures { Puts self.old self.new owner item }
    {
        self.queues[owner as usize].put(item);
    }

    /// Takes all frames of the owner out, the oldest first. It takes no memory.
    pub fn take_all(&mut self, owner: u64) -> FrameList
        requires { owner < MAX_CALLERS }
        ensures taken { result ≡ frames_of self.old owner }
        ensures emptied { frames_of self.new owner ≡ [] }
        ensures others { (w : ℕ) → w ≢ owner → row_of self.new w ≡ row_of self.old w }
    {
        match self.queues.get_mut(owner as usize) {
            Some(queue) => queue.take_all(),
            None => FrameList::new(self.alloc),
        }
    }
}

ghost use Rattle.ch_base.specs.declared.limits.TheConstants.{MAX_CALLERS};
ghost use Rattle.ch_outbox.specs.Outbox.{frames_of, spare_of};

/// Adds empty queues until the owner has one.
fn grow(alloc: Global, queues: &mut Vec<Queue>, owner: usize) -> Result<(), Memory>
    ensures frames { (w : ℕ) → frames_of queues.new.items w ≡ frames_of queues.old.items w }
    ensures spare { (w : ℕ) → spare_of queues.old.items w ≤ spare_of queues.new.items w }
    ensures there { OnOk result (owner < vec_len queues.new) }
{
    'owners: while queues.len() <= owner {
        if queues.push(Queue::new(alloc)).is_err() {
            return Err(Memory);
        }
    }
    Ok(())
}

ghost use Rattle.std.specs.Prelude.{◌≡◌, ◌+◌, ◌<◌, ◌≤◌, [], ◌∷◌, ◌++◌, OnOk};

use ch_base::{FrameList, Memory, Shared};
use std::alloc::Global;
use std::marker::Model;
use std::mem;

/// The frames that wait for one owner.
#[derive(Drop)]
pub struct Queue {
    alloc: Global,
    frames: Vec<Shared>,
}

impl Model for Queue {
    ghost use Rattle.std.specs.Prelude.{◌-◌, vec_len, vec_capacity};
    ghost use Rattle.ch_outbox.specs.Outbox.{Waiting};

    ghost Value = { Waiting };

    ghost view = { λ q. record { frames = q.frames.items; spare = vec_capacity q.frames - vec_len q.frames } };
}

impl Queue {
    pub fn new(alloc: Global) -> Queue
        ensures { result.frames ≡ [] }
    {
        Queue {
            alloc,
            frames: Vec::new(alloc),
        }
    }

    /// Makes room for n more frames.
    pub fn reserve(&mut self, n: usize) -> Result<(), Memory>
        ensures frames { self.new.frames ≡ self.old.frames }
        ensures spare { self.old.spare ≤ self.new.spare }
        ensures room { OnOk result (n ≤ self.new.spare) }
    {
        self.frames.reserve(n)?;
        Ok(())
    }

    /// Adds a frame. It takes no memory.
    pub fn put(&mut self, item: Shared)
        requires { 0 < self.old.spare }
        ensures frames { self.new.frames ≡ self.old.frames ++ item ∷ [] }
        ensures spare { self.new.spare + 1 ≡ self.old.spare }
    {
        self.frames.push_reserved(item);
    }

    /// Takes all frames out. It takes no memory.
    pub fn take_all(&mut self) -> FrameList
        ensures taken { result ≡ self.old.frames }
        ensures emptied { self.new.frames ≡ [] }
    {
        let taken = mem::replace(&mut self.frames, Vec::new(self.alloc));
        FrameList::from_vec(taken)
    }
}

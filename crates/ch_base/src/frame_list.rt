ghost use Rattle.std.specs.Prelude.{◌≡◌, [], ◌∷◌, ◌++◌, ◌↔◌, length, slice_get, IsTrue, IsNone, OnOk, OnErr};
ghost use Rattle.std.specs.Option.{option_copied, option_to_list};

use crate::memory::Memory;
use crate::shared::Shared;
use std::alloc::Global;
use std::collections::VecDeque;
use std::marker::Model;

/// A list of frames, each with its socket, which share their texts. Contracts see the frames and the sockets in order.
///
/// It is made from a `Vec` and gives it back without taking memory, and its frames are taken out one after another.
#[derive(Debug, Drop)]
pub struct FrameList {
    items: VecDeque<Shared>,
}

impl Model for FrameList {
    ghost use Rattle.std.specs.Prelude.{List};
    ghost use Rattle.ch_base.specs.declared.frame.FrameFor.{FrameFor};

    ghost Value = { List FrameFor };

    ghost view = { λ it. it.items.items };
}

impl FrameList {
    /// The empty list, which takes no memory.
    pub fn new(alloc: Global) -> FrameList
        ensures { result ≡ [] }
    {
        FrameList {
            items: VecDeque::new(alloc),
        }
    }

    /// It takes no memory.
    pub fn from_vec(items: Vec<Shared>) -> FrameList
        ensures { result ≡ items.items }
    {
        FrameList {
            items: VecDeque::from_vec(items),
        }
    }

    /// It takes no memory.
    pub fn into_vec(self) -> Vec<Shared>
        ensures { result.items ≡ self }
    {
        let FrameList { items } = self;
        items.into_vec()
    }

    /// Takes the first frame out; none exactly where the list is empty. It takes no memory, in a time that doesn't
    /// grow with the list.
    pub fn take_front(&mut self) -> Option<Shared>
        ensures front { self.old ≡ option_to_list result ++ self.new }
        ensures none { IsNone result ↔ (self.old ≡ []) }
    {
        self.items.pop_front()
    }

    /// Adds a frame at the end.
    pub fn push(&mut self, item: Shared) -> Result<(), Memory>
        ensures ok { OnOk result (self.new ≡ self.old ++ item ∷ []) }
        ensures err { OnErr result (self.new ≡ self.old) }
    {
        match self.items.push_back(item) {
            Ok(()) => Ok(()),
            Err(_) => Err(Memory),
        }
    }

    pub fn len(&self) -> usize
        ensures { result ≡ length self.now }
    {
        self.items.len()
    }

    pub fn is_empty(&self) -> bool
        ensures { IsTrue result ↔ (self.now ≡ []) }
    {
        self.items.is_empty()
    }

    /// The frame at a place, counted from 0; none where the list is shorter.
    pub fn get(&self, at: usize) -> Option<&Shared>
        ensures { option_copied result ≡ slice_get self.now at }
    {
        self.items.get(at)
    }
}

ghost use Rattle.std.specs.Prelude.{◌≡◌, ◌<◌, [], ◌∷◌, ◌++◌, length, slice_get, IfOk, Some};
ghost use Rattle.circular_buffer.specs.Buffer.{keep_last};
ghost use Rattle.ch_history.specs.Letters.{letter_of};
ghost use Rattle.ch_history.specs.declared.limits.TheConstants.{LONGEST_TAIL};

use crate::brief::{Brief, letter_of};
use ch_base::{ChanCall, Memory};
use ch_history::LONGEST_TAIL;
use circular_buffer::HeapCircularBuffer;
use std::alloc::Global;
use std::marker::Model;

/// The last entries of a shard in brief, in a ring whose room is taken at the beginning.
#[derive(Drop)]
pub struct Tail {
    entries: HeapCircularBuffer<Brief>,
}

impl Model for Tail {
    ghost use Rattle.std.specs.Prelude.{◌≡◌, List};
    ghost use Rattle.ch_shard.specs.declared.brief.Brief.{Brief};
    ghost use Rattle.ch_history.specs.declared.limits.TheConstants.{LONGEST_TAIL};

    ghost Value = { List Brief };

    ghost view = { λ t. t.entries.items };

    ghost invariant = { λ t. t.entries.capacity ≡ LONGEST_TAIL };
}

impl Tail {
    /// No entries, with all the room that there will be.
    pub fn new(alloc: Global) -> Result<Tail, Memory>
        ensures { IfOk result (λ t. t ≡ []) }
    {
        Ok(Tail {
            entries: HeapCircularBuffer::with_capacity(alloc, LONGEST_TAIL)?,
        })
    }

    /// Adds the entry of a call, in the place of the oldest one where all places are taken. It takes no
    /// memory.
    pub fn note(&mut self, caller: u64, call: &ChanCall)
        ensures { self.new ≡ keep_last LONGEST_TAIL (self.old ++ record { caller = caller; letter = letter_of call.now } ∷ []) }
    {
        let letter = letter_of(call);
        self.entries.push_back(Brief { caller, letter });
    }

    /// How many entries there are.
    pub fn len(&self) -> u64
        ensures { result ≡ length self.now }
    {
        self.entries.len() as u64
    }

    /// The entry with this place, the oldest one at 0.
    pub fn at(&self, i: u64) -> Brief
        requires { i < length self.now }
        ensures { slice_get self.now i ≡ Some result }
    {
        match self.entries.get(i as usize) {
            Some(entry) => *entry,
            None => unreachable!(),
        }
    }
}

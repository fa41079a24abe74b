ghost use Rattle.std.specs.Prelude.{◌≡◌, [], false, if◌then◌else◌, IfOk, slice_get, drop, length};
ghost use Rattle.std.specs.Option.{option_copied};
ghost use Rattle.ch_live.specs.Backlogs.{is_cut, delivered, marked};

use crate::limits::MOST_FRAMES;
use crate::turn::Delivered;
use crate::waiting::Waiting;
use ch_base::{Memory, OVER_CAPACITY, UNAUTHORIZED};
use circular_buffer::HeapCircularBuffer;
use std::alloc::Global;
use std::marker::Model;

/// The frames that wait for a socket, with all the room that there will be, and the marks that end its
/// connection.
#[derive(Drop)]
pub struct Backlog {
    frames: HeapCircularBuffer<Waiting>,
    killed: bool,
    cut: bool,
}

impl Model for Backlog {
    ghost use Rattle.std.specs.Prelude.{◌≡◌};
    ghost use Rattle.ch_live.specs.Backlogs.{Held};
    ghost use Rattle.ch_live.specs.declared.limits.TheConstants.{MOST_FRAMES};

    ghost Value = { Held };

    ghost view = { λ b. record { frames = b.frames.items; killed = b.killed; cut = b.cut } };

    ghost invariant = { λ b. b.frames.capacity ≡ MOST_FRAMES };
}

impl Backlog {
    /// Room for frames, of which none waits.
    pub fn new(alloc: Global) -> Result<Backlog, Memory>
        ensures { IfOk result (λ b. b ≡ record { frames = []; killed = false; cut = false }) }
    {
        Ok(Backlog {
            frames: HeapCircularBuffer::with_capacity(alloc, MOST_FRAMES)?,
            killed: false,
            cut: false,
        })
    }

    /// Delivers a frame: it waits where there is room. A Kill doesn't wait, but marks the connection, as a
    /// frame does that finds no room. It takes no memory.
    pub fn deliver(&mut self, frame: Waiting) -> Delivered
        ensures held { self.new ≡ delivered self.old frame }
        ensures cut { result ≡ (if is_cut self.old frame then Delivered.Cut else Delivered.Kept) }
    {
        if frame.is_kill() {
            self.killed = true;
            return Delivered::Kept;
        }
        match self.frames.try_push_back(frame) {
            Ok(()) => Delivered::Kept,
            Err(frame) => {
                let_go(frame);
                self.cut = true;
                Delivered::Cut
            }
        }
    }

    /// The code with which a marked connection ends.
    pub fn marked(&self) -> Option<u16>
        ensures { result ≡ marked self.now }
    {
        if self.killed {
            Some(UNAUTHORIZED)
        } else if self.cut {
            Some(OVER_CAPACITY)
        } else {
            None
        }
    }

    /// How many frames wait.
    pub fn len(&self) -> usize
        ensures { result ≡ length self.now.frames }
    {
        self.frames.len()
    }

    /// The frame that waited longest.
    pub fn first(&self) -> Option<&Waiting>
        ensures { option_copied result ≡ slice_get self.now.frames 0 }
    {
        self.frames.front()
    }

    /// The frame that waited longest is sent.
    pub fn first_sent(&mut self)
        ensures { self.new ≡ record self.old { frames = drop 1 self.old.frames } }
    {
        self.frames.pop_front();
    }
}

/// Drops a frame that found no room.
fn let_go(_frame: Waiting) {}

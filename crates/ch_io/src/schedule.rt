ghost use Rattle.std.specs.Prelude.{◌≡◌, ◌≤◌, IfSome};
ghost use Rattle.ch_io.specs.Schedules.{after_call, next_size};

use std::marker::Model;

/// How the calls of a version in memory go, one after another: how many bytes each moves at most, and
/// which of them fail.
#[derive(Debug, Drop)]
pub struct Schedule {
    pieces: Vec<usize>,
    failing: Vec<usize>,
    calls: usize,
}

impl Model for Schedule {
    ghost use Rattle.ch_io.specs.Schedules.{Plan};

    ghost Value = { Plan };

    ghost view = { λ s. record { pieces = s.pieces.items; failing = s.failing.items; calls = s.calls } };
}

impl Schedule {
    /// The calls move at most so many bytes each, in order, and after the last of these sizes as many
    /// as there are; a size of 0 counts as 1. Those with the failing numbers, counted from 1, fail.
    pub fn new(pieces: Vec<usize>, failing: Vec<usize>) -> Schedule
        ensures { result ≡ record { pieces = pieces.items; failing = failing.items; calls = 0 } }
    {
        Schedule {
            pieces,
            failing,
            calls: 0,
        }
    }

    /// How many bytes the next call moves at most; none where it is to fail.
    pub fn next(&mut self) -> Option<usize>
        ensures size { result ≡ next_size self.old }
        ensures some { IfSome result (λ size. 1 ≤ size) }
        ensures counted { self.new ≡ after_call self.old }
    {
        let piece = self.pieces.get(self.calls).copied();
        self.calls = self.calls.saturating_add(1);
        if self.failing.contains(&self.calls) {
            return None;
        }
        match piece {
            Some(size) => Some(size.max(1)),
            None => Some(usize::MAX),
        }
    }
}

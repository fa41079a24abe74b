ghost use Rattle.std.specs.Prelude.{◌≡◌};
ghost use Rattle.ch_clients.specs.Answers.{stronger};

/// What a turn of a worker answers, and each of the things that it does.
#[derive(Clone, Copy, Debug, PartialEq, Eq)]
pub enum WorkerTurn {
    /// Nothing came, nobody left, and each client waits.
    Idle,
    /// Something was done.
    Moved,
    /// There was no memory for a part of the turn.
    Memory,
}

impl WorkerTurn {
    /// What two things that were done come to: want of memory goes before all, and idle is only what is idle
    /// throughout.
    pub fn and(self, other: WorkerTurn) -> WorkerTurn
        ensures { result ≡ stronger self other }
    {
        match (self, other) {
            (WorkerTurn::Memory, _) | (_, WorkerTurn::Memory) => WorkerTurn::Memory,
            (WorkerTurn::Idle, WorkerTurn::Idle) => WorkerTurn::Idle,
            _ => WorkerTurn::Moved,
        }
    }
}

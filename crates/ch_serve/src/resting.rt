//! How long a thread rests after a turn.
use ch_edge::Pause;
use ch_worker::WorkerTurn;

/// How long a worker's thread rests after a turn: not at all where it moved something, a short while where it wanted
/// memory, and else until something comes.
pub(crate) fn pause_after(turn: WorkerTurn) -> Pause {
    match turn {
        WorkerTurn::Moved => Pause::None,
        WorkerTurn::Idle => Pause::Long,
        WorkerTurn::Memory => Pause::Short,
    }
}

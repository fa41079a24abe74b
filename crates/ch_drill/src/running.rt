//! The command.
ghost use Rattle.std.specs.Prelude.{◌≡◌, ◌≢◌, ◌↔◌, [], true, None, Some, All, IfOk, IfSome, IsTrue};
ghost use Rattle.std.specs.Io.KnownBytes.{Appends};
ghost use Rattle.ch_io.specs.Counts.{Rose};
ghost use Rattle.ch_io.specs.Writes.{WritesLast};
ghost use Rattle.ch_drill.specs.DrillCounts.{IsSmall};
ghost use Rattle.ch_drill.specs.DrillRuns.{HasWorked, IsDrilled, WritesFront, is_status};
ghost use Rattle.ch_drill.specs.DrillText.{drill_text, usage_line};
ghost use Rattle.ch_drill.specs.DrillWords.{AsksFor, IsDrill};
ghost use Rattle.ch_drill.specs.declared.words.Drill.{Drill as asked};

use crate::closing::is_closed_after;
use crate::counts::{drill_counts, turns_of};
use crate::printing::{drill_text, usage_text};
use crate::words::{Drill, drill_of};
use crate::working::work_all;
use ch_base::{Memory, Text};
use ch_house::HouseClosed;
use ch_io::{Sink, WriteFailed, write_all, write_last};
use ch_net::MemLink;
use ch_pool::{Ran, WorkerList};
use ch_worker::{NoGate, Worker};
use std::alloc::Global;
use std::sync::Wait;
use std::thread::Threads;

/// Runs the drill that the words ask for, and writes how many entries each shard has: workers on threads, each with one
/// connection of its own, at desks of one house, which is closed at the end.
///
/// | Status | Comes |
/// |---|---|
/// | 0 | the closed house and the workers' turns are as the definitions say, and the text was written |
/// | 2 | the words ask for no drill; the usage line is written |
/// | 6 | a write to the sink failed |
/// | 7 | want of memory, or the house or a worker is otherwise |
pub fn drill<R: Threads + Wait + Sync, K: Sink>(
    rt: &R,
    alloc: Global,
    words: &[Text],
    sink: &mut K,
) -> Ran<MemLink>
    ensures done { result.status ≡ 0 → (d : asked) × AsksFor words.now d
        × IsDrilled d result.closed result.workers
        × Appends (K.told sink.old) (K.told sink.new) (drill_text d) }
    ensures words { result.status ≡ 2 → IsDrill words.now None }
    ensures usage { result.status ≡ 2 → WritesLast usage_line (K.told sink.old) (K.told sink.new)
        (Rose (K.faults sink.old) (K.faults sink.new)) }
    ensures broken { result.status ≡ 6 → (d : asked) × AsksFor words.now d
        × WritesFront (drill_text d) (K.told sink.old) (K.told sink.new) }
    ensures write_fault { result.status ≡ 6 → Rose (K.faults sink.old) (K.faults sink.new) }
    ensures memory { result.status ≡ 7 → sink.new ≡ sink.old }
    ensures otherwise { result.status ≢ 0 → (result.closed ≡ None) × (result.workers ≡ []) }
    ensures statuses { is_status result.status ≡ true }
{
    match drill_of(alloc, words) {
        Ok(Some(drill)) => run(rt, alloc, &drill, sink),
        Ok(None) => refuse(alloc, sink),
        Err(Memory) => Ran::ended(alloc, 7),
    }
}

/// Writes the usage line.
fn refuse<K: Sink>(alloc: Global, sink: &mut K) -> Ran<MemLink>
    ensures status { result.status ≡ 2 }
    ensures usage { WritesLast usage_line (K.told sink.old) (K.told sink.new)
        (Rose (K.faults sink.old) (K.faults sink.new)) }
    ensures nothing { (result.closed ≡ None) × (result.workers ≡ []) }
{
    write_last(sink, usage_text());
    Ran::ended(alloc, 2)
}

/// What a drill left, where that is as the definitions say, and the text that tells it.
#[derive(Drop)]
struct Left {
    closed: HouseClosed,
    workers: WorkerList<MemLink>,
    text: Text,
}

/// Runs the drill and writes what it left. The status is 7 where it left something else.
fn run<R: Threads + Wait + Sync, K: Sink>(
    rt: &R,
    alloc: Global,
    drill: &Drill,
    sink: &mut K,
) -> Ran<MemLink>
    requires { IsSmall drill.now }
    ensures done { result.status ≡ 0 → IsDrilled drill.now result.closed result.workers
        × Appends (K.told sink.old) (K.told sink.new) (drill_text drill.now) }
    ensures broken { result.status ≡ 6 → WritesFront (drill_text drill.now)
        (K.told sink.old) (K.told sink.new) }
    ensures write_fault { result.status ≡ 6 → Rose (K.faults sink.old) (K.faults sink.new) }
    ensures memory { result.status ≡ 7 → sink.new ≡ sink.old }
    ensures otherwise { result.status ≢ 0 → (result.closed ≡ None) × (result.workers ≡ []) }
    ensures statuses { is_status result.status ≡ true }
    ensures asked { result.status ≢ 2 }
{
    let Ok(Some(left)) = left_by(rt, alloc, drill) else {
        return Ran::ended(alloc, 7);
    };
    match write_all(sink, left.text.as_str().as_bytes()) {
        Ok(()) => Ran::well(left.closed, left.workers),
        Err(WriteFailed) => Ran::ended(alloc, 6),
    }
}

/// What the drill leaves; None where that isn't as the definitions say.
fn left_by<R: Threads + Wait + Sync>(
    rt: &R,
    alloc: Global,
    drill: &Drill,
) -> Result<Option<Left>, Memory>
    requires { IsSmall drill.now }
    ensures drilled { IfOk result (λ found. IfSome found
        (λ left. IsDrilled drill.now (Some left.closed) left.workers)) }
    ensures text { IfOk result (λ found. IfSome found (λ left. left.text ≡ drill_text drill.now)) }
{
    let counts = drill_counts(alloc, drill)?;
    let text = drill_text(alloc, &counts)?;
    let (closed, workers) = work_all(rt, alloc, drill)?;
    if is_closed_after(&closed, &counts) && have_worked(workers.as_slice(), turns_of(drill)) {
        Ok(Some(Left {
            closed,
            workers,
            text,
        }))
    } else {
        Ok(None)
    }
}

/// Whether each worker took so many turns and one connection, and nobody is there any more.
fn have_worked(workers: &[Worker<MemLink, NoGate>], turns: u64) -> bool
    ensures { IsTrue result → All (HasWorked turns) workers.now }
{
    workers.iter().all(|worker| has_worked(worker, turns))
}

fn has_worked(worker: &Worker<MemLink, NoGate>, turns: u64) -> bool
    ensures { IsTrue result ↔ HasWorked turns worker.now }
{
    worker.turns() == turns && worker.taken() == 1 && worker.idle()
}

//! Calls under a turn lock.
ghost use Rattle.std.specs.Prelude.{◌≡◌, ◌≤◌, All, IfSome};

use ch_turn::{Add, Pass, PassList, Tally, TurnLock};
use std::alloc::Global;
use std::sync::Wait;
use std::thread::{Threads, for_each_mut};

/// Makes the calls with one pass.
fn call_often<R: Wait>(rt: &R, lock: &TurnLock<Tally>, pass: &mut Pass<Tally>, calls: u64)
    requires { pass.old.lock ≡ lock.now }
{
    for _ in 0..calls {
        let _answer = lock.call(rt, pass, &Add);
    }
}

/// So many passes of a lock.
fn taken_passes(
    alloc: Global,
    passes: &mut PassList<Tally>,
    callers: u64,
) -> Option<Vec<Pass<Tally>>>
    ensures { IfSome result (λ taken. All (λ p. p.lock ≡ passes.old.lock) taken.items) }
{
    let mut taken = Vec::new(alloc);
    for caller in 0..callers {
        taken.push(passes.take(caller)?).ok()?;
    }
    Some(taken)
}

/// Each pass makes its calls in a thread of its own.
fn call_in_threads<R: Threads + Wait + Sync>(
    rt: &R,
    lock: &TurnLock<Tally>,
    passes: &mut [Pass<Tally>],
    calls: u64,
)
    requires { All (λ p. p.lock ≡ lock.now) passes.old }
{
    let threads = passes.len();
    if threads == 0 {
        return;
    }
    let job = |_: usize, pass: &mut Pass<Tally>|
        requires { pass.now.lock ≡ lock.now }
    { call_often(rt, lock, pass, calls) };
    for_each_mut(rt, passes, threads, &job);
}

/// Makes the calls in each of so many threads. It makes none where there is no memory for the lock.
pub fn run<R: Threads + Wait + Sync>(rt: &R, alloc: Global, threads: u64, calls: u64) -> Option<()>
    requires { (1 ≤ threads) × (threads ≤ 64) }
{
    let (lock, mut passes) = TurnLock::new(alloc, Tally { count: 0 }, threads).ok()?;
    let mut taken = taken_passes(alloc, &mut passes, threads)?;
    call_in_threads(rt, &lock, taken.as_mut_slice(), calls);
    Some(())
}

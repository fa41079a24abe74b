//! The same calls under a mutex of std.
use ch_base::Served;
use ch_turn::{Add, Tally};
use std::alloc::Global;
use std::sync::{Mutex, Wait};
use std::thread::{Threads, for_each_mut};

/// Makes the calls in one thread.
fn call_often<R: Wait>(rt: &R, tally: &Mutex<Tally>, calls: u64) {
    for _ in 0..calls {
        let _answer = tally.lock(rt).serve(0, &Add);
    }
}

/// Makes the calls in each of so many threads. It makes none where there is no memory for their list.
pub fn run<R: Threads + Wait + Sync>(
    rt: &R,
    alloc: Global,
    threads: u64,
    calls: u64,
) -> Option<()> {
    let mut callers = Vec::from_elem(alloc, 0_u64, threads as usize).ok()?;
    if callers.is_empty() {
        return Some(());
    }
    let tally = Mutex::new(Tally { count: 0 });
    let count = callers.len();
    for_each_mut(
        rt,
        callers.as_mut_slice(),
        count,
        &|_: usize, _: &mut u64| { call_often(rt, &tally, calls) },
    );
    Some(())
}

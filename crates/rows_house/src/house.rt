//! Two workers at desks of one house, at once.
ghost use Rattle.std.specs.Prelude.{◌≡◌, ◌<◌, ◌≤◌, ◌^◌, ℕ, All, length, slice_get, slice_index_or, Some, None, IfOk, IfSome};
ghost use Rattle.ch_history.specs.WellFormed.{IsWellFormed};
ghost use Rattle.ch_history.specs.Placement.{BelongsTo};
ghost use Rattle.ch_house.specs.Houses.{IsWhole};
ghost use Rattle.rows_house.specs.declared.house.Worker.{Worker as worker};

use crate::flag::{is_seen, set};
use ch_base::{ChanCall, Memory, Text};
use ch_house::{House, HouseClosed, HouseDesk, Passes, PassesList, ShardCount};
use std::alloc::Global;
use std::sync::Wait;
use std::sync::atomic::AtomicU64;
use std::test::Fail;
use std::thread::{Threads, for_each_mut};

/// A subscription of a socket to `b`, which has its place on shard 1 of two.
fn subscription(alloc: Global, socket: u64) -> Result<ChanCall, Memory>
    requires { (1 ≤ socket) × (socket ≤ 2 ^ 62) }
    ensures formed { IfOk result IsWellFormed }
    ensures belongs { IfOk result (BelongsTo (1, 2)) }
{
    Ok(ChanCall::Join {
        socket,
        channel: Text::of(alloc, "b")?,
        member: None,
        at: 0,
    })
}

/// An event on `b`.
fn event(alloc: Global) -> Result<ChanCall, Memory>
    ensures formed { IfOk result IsWellFormed }
    ensures belongs { IfOk result (BelongsTo (1, 2)) }
{
    Ok(ChanCall::Publish {
        channel: Text::of(alloc, "b")?,
        event: Text::of(alloc, "e")?,
        body: Text::of(alloc, "\"x\"")?,
        except: None,
        at: 0,
    })
}

/// Subscribes one socket and publishes a hundred times, all on shard 1. Whether all of it was done.
fn subscribe_and_publish<R: Wait>(rt: &R, alloc: Global, desk: &mut HouseDesk<'_>) -> Option<()>
    requires two { length desk.old.chans ≡ 2 }
    ensures { (desk.new.house ≡ desk.old.house) × (desk.new.caller ≡ desk.old.caller) }
{
    let call = subscription(alloc, 7).ok()?;
    desk.chan(rt, 1, &call).ok()?;
    for _ in 0..100 {
        let call = event(alloc).ok()?;
        desk.chan(rt, 1, &call).ok()?;
    }
    Some(())
}

/// A worker at its desk.
#[derive(Drop)]
struct Worker<'a> {
    desk: HouseDesk<'a>,
    /// Whether it saw that the other had begun, and did all its work.
    done: bool,
}

/// Works once the other has begun too.
fn work<R: Wait>(
    rt: &R,
    alloc: Global,
    worker: &mut Worker<'_>,
    mine: &AtomicU64,
    theirs: &AtomicU64,
)
    requires two { length worker.old.desk.chans ≡ 2 }
    ensures house { worker.new.desk.house ≡ worker.old.desk.house }
    ensures caller { worker.new.desk.caller ≡ worker.old.desk.caller }
{
    set(mine);
    worker.done = is_seen(theirs) && subscribe_and_publish(rt, alloc, &mut worker.desk).is_some();
}

/// Each worker has a thread of its own.
fn work_in_threads<R: Threads + Wait + Sync>(
    rt: &R,
    alloc: Global,
    workers: &mut [Worker<'_>],
    flags: (&AtomicU64, &AtomicU64),
)
    requires two { All (λ w. length w.desk.chans ≡ 2) workers.old }
    ensures count { length workers.new ≡ length workers.old }
    ensures same { (i : ℕ) (old new : worker)
        → slice_get workers.old i ≡ Some old → slice_get workers.new i ≡ Some new
        → (new.desk.house ≡ old.desk.house) × (new.desk.caller ≡ old.desk.caller) }
{
    let (first, second) = flags;
    let job = |i: usize, worker: &mut Worker<'_>|
        requires { length worker.now.desk.chans ≡ 2 }
        ensures { (worker.exit.now.desk.house ≡ worker.entry.now.desk.house)
            × (worker.exit.now.desk.caller ≡ worker.entry.now.desk.caller) }
    {
        if i == 0 {
            work(rt, alloc, worker, first, second)
        } else {
            work(rt, alloc, worker, second, first)
        }
    };
    for_each_mut(rt, workers, 2, &job);
}

/// Takes the passes of both callers.
fn take_both(passes: &mut PassesList) -> Option<(Passes, Passes)>
    requires { length passes.old.slots ≡ 2 }
    ensures house { passes.new.house ≡ passes.old.house }
    ensures two { length passes.new.slots ≡ 2 }
    ensures none { (slice_index_or passes.new.slots 0 None ≡ None)
        × (slice_index_or passes.new.slots 1 None ≡ None) }
    ensures first { IfSome result (λ both. (both.0.house ≡ passes.old.house) × (both.0.caller ≡ 0)) }
    ensures second { IfSome result (λ both. (both.1.house ≡ passes.old.house) × (both.1.caller ≡ 1)) }
{
    let first = passes.take(0);
    let second = passes.take(1);
    Some((first?, second?))
}

/// Gives the passes of both callers back.
fn give_both(passes: &mut PassesList, first: Passes, second: Passes)
    requires first { (first.house ≡ passes.old.house) × (first.caller ≡ 0) }
    requires second { (second.house ≡ passes.old.house) × (second.caller ≡ 1) }
    requires none { (slice_index_or passes.old.slots 0 None ≡ None)
        × (slice_index_or passes.old.slots 1 None ≡ None) }
    requires two { (length passes.old.slots ≡ 2) × (passes.old.house.chans.callers ≡ 2) }
    ensures house { passes.new.house ≡ passes.old.house }
    ensures whole { IsWhole passes.new }
{
    passes.give(first);
    passes.give(second);
}

/// A worker that has passes of the house.
fn worker_at<'a>(house: &'a House, passes: Passes) -> Worker<'a>
    requires { passes.house ≡ house.now }
    ensures { result.desk ≡ passes }
{
    Worker {
        desk: HouseDesk::new(house, passes),
        done: false,
    }
}

/// Both callers work at their desks at once, and get up with their passes. None where one of them didn't see the other.
fn work_of_both<R: Threads + Wait + Sync>(
    rt: &R,
    alloc: Global,
    house: &House,
    first: Passes,
    second: Passes,
) -> Option<(Passes, Passes)>
    requires own { (first.house ≡ house.now) × (second.house ≡ house.now) }
    requires two { (length first.chans ≡ 2) × (length second.chans ≡ 2) }
    ensures first { IfSome result (λ both.
        (both.0.house ≡ first.house) × (both.0.caller ≡ first.caller)) }
    ensures second { IfSome result (λ both.
        (both.1.house ≡ second.house) × (both.1.caller ≡ second.caller)) }
{
    let Ok(mut workers) = Vec::with_capacity(alloc, 2) else {
        return None;
    };
    workers.push_reserved(worker_at(house, first));
    workers.push_reserved(worker_at(house, second));
    let begun = (AtomicU64::new(0), AtomicU64::new(0));
    work_in_threads(rt, alloc, workers.as_mut_slice(), (&begun.0, &begun.1));
    let second = workers.pop()?;
    let first = workers.pop()?;
    if !(first.done && second.done) {
        return None;
    }
    Some((first.desk.into_passes(), second.desk.into_passes()))
}

/// A house of two channel shards and one user shard, closed after two workers have worked at it at once.
fn closed_after_work<R: Threads + Wait + Sync>(rt: &R, alloc: Global) -> Option<HouseClosed>
    ensures two { IfSome result (λ closed. length closed.chans ≡ 2) }
    ensures one { IfSome result (λ closed. length closed.users ≡ 1) }
{
    let (house, mut passes) = House::new(alloc, 2, 1, 2).ok()?;
    let (first, second) = take_both(&mut passes)?;
    let (first, second) = work_of_both(rt, alloc, &house, first, second)?;
    give_both(&mut passes, first, second);
    Some(house.close(passes))
}

#[test]
fn two_workers_leave_one_history(rt: HostRuntime) -> Result<(), Fail> {
    let closed = closed_after_work(&rt, rt.alloc()).ok_or("one worker didn't see the other")?;
    let none = ShardCount {
        entries: 0,
        left: 0,
    };
    let all = ShardCount {
        entries: 202,
        left: 1,
    };
    assert_eq!(rt; closed.chan(0), none);
    assert_eq!(rt; closed.chan(1), all);
    assert_eq!(rt; closed.user(0), none);
    Ok(())
}

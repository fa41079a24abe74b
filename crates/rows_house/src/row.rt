//! A call that is held in one lock of a row holds no other lock.
ghost use Rattle.std.specs.Prelude.{◌≡◌, [], All, length, slice_index_or, None, IfSome};
ghost use Rattle.ch_house.specs.Rows.{IsWhole};

use crate::flag::{is_seen, set};
use crate::held::Held;
use ch_base::{Items, Served};
use ch_house::{ClosedList, Locks, RowPasses, RowPassesList};
use ch_turn::Add;
use std::alloc::Global;
use std::sync::atomic::AtomicU64;
use std::sync::{Arc, Wait};
use std::test::Fail;
use std::thread::{Threads, join};

/// Value k of the row.
fn held(k: u64, begun: &Arc<AtomicU64, Global>, answered: &Arc<AtomicU64, Global>) -> Option<Held>
    ensures { IfSome result (λ held. ⟦<Held as Served>⟧.stands held []) }
{
    Some(Held {
        k,
        count: 0,
        begun: Arc::try_clone(begun).ok()?,
        answered: Arc::try_clone(answered).ok()?,
        saw: false,
    })
}

/// The two values of the row.
fn two_held(
    alloc: Global,
    begun: &Arc<AtomicU64, Global>,
    answered: &Arc<AtomicU64, Global>,
) -> Option<Items<Held>>
    ensures two { IfSome result (λ values. length values ≡ 2) }
    ensures empty { IfSome result (λ values. All (λ h. ⟦<Held as Served>⟧.stands h []) values) }
{
    let first = held(0, begun, answered)?;
    let second = held(1, begun, answered)?;
    let mut values = Items::new(alloc);
    values.push(first).ok()?;
    values.push(second).ok()?;
    Some(values)
}

/// Makes one call on value 0, in which it is held.
fn be_held<R: Wait>(rt: &R, locks: &Locks<Held>, mut passes: RowPasses<Held>) -> RowPasses<Held>
    requires own { passes.row ≡ locks.now }
    requires two { length locks.now.locks ≡ 2 }
    ensures { (result.row ≡ passes.row) × (result.caller ≡ passes.caller) }
{
    let _answer = locks.call(rt, &mut passes, 0, &Add);
    passes
}

/// Makes one call on value 1 once the call on value 0 has begun, and says that it has answered.
fn let_go<R: Wait>(
    rt: &R,
    locks: &Locks<Held>,
    begun: &AtomicU64,
    answered: &AtomicU64,
    mut passes: RowPasses<Held>,
) -> RowPasses<Held>
    requires own { passes.row ≡ locks.now }
    requires two { length locks.now.locks ≡ 2 }
    ensures { (result.row ≡ passes.row) × (result.caller ≡ passes.caller) }
{
    if is_seen(begun) && locks.call(rt, &mut passes, 1, &Add).is_ok() {
        set(answered);
    }
    passes
}

/// Both at once.
fn hold_in_threads<R: Threads + Wait + Sync>(
    rt: &R,
    locks: &Locks<Held>,
    flags: (&AtomicU64, &AtomicU64),
    first: RowPasses<Held>,
    second: RowPasses<Held>,
) -> (RowPasses<Held>, RowPasses<Held>)
    requires own { (first.row ≡ locks.now) × (second.row ≡ locks.now) }
    requires two { length locks.now.locks ≡ 2 }
    ensures first { (result.0.row ≡ first.row) × (result.0.caller ≡ first.caller) }
    ensures second { (result.1.row ≡ second.row) × (result.1.caller ≡ second.caller) }
{
    let (begun, answered) = flags;
    join(
        rt,
        move || -> RowPasses<Held>
            requires { (first.row ≡ locks.now) × (length locks.now.locks ≡ 2) }
            ensures { (result.row ≡ first.row) × (result.caller ≡ first.caller) }
        { be_held(rt, locks, first) },
        move || -> RowPasses<Held>
            requires { (second.row ≡ locks.now) × (length locks.now.locks ≡ 2) }
            ensures { (result.row ≡ second.row) × (result.caller ≡ second.caller) }
        { let_go(rt, locks, begun, answered, second) },
    )
}

/// Takes the passes of both callers.
fn take_both(passes: &mut RowPassesList<Held>) -> Option<(RowPasses<Held>, RowPasses<Held>)>
    requires { length passes.old.slots ≡ 2 }
    ensures row { passes.new.row ≡ passes.old.row }
    ensures two { length passes.new.slots ≡ 2 }
    ensures none { (slice_index_or passes.new.slots 0 None ≡ None)
        × (slice_index_or passes.new.slots 1 None ≡ None) }
    ensures first { IfSome result (λ both. (both.0.row ≡ passes.old.row) × (both.0.caller ≡ 0)) }
    ensures second { IfSome result (λ both. (both.1.row ≡ passes.old.row) × (both.1.caller ≡ 1)) }
{
    let first = passes.take(0);
    let second = passes.take(1);
    Some((first?, second?))
}

/// Gives the passes of both callers back.
fn give_both(passes: &mut RowPassesList<Held>, first: RowPasses<Held>, second: RowPasses<Held>)
    requires first { (first.row ≡ passes.old.row) × (first.caller ≡ 0) }
    requires second { (second.row ≡ passes.old.row) × (second.caller ≡ 1) }
    requires none { (slice_index_or passes.old.slots 0 None ≡ None)
        × (slice_index_or passes.old.slots 1 None ≡ None) }
    requires two { (length passes.old.slots ≡ 2) × (passes.old.row.callers ≡ 2) }
    ensures row { passes.new.row ≡ passes.old.row }
    ensures whole { IsWhole passes.new }
{
    passes.give(first);
    passes.give(second);
}

/// The closed row, after a call on value 0 was held until a call on value 1 has answered.
fn closed_after_holding<R: Threads + Wait + Sync>(
    rt: &R,
    alloc: Global,
) -> Option<ClosedList<Held>> {
    let begun = Arc::new(alloc, AtomicU64::new(0)).ok()?;
    let answered = Arc::new(alloc, AtomicU64::new(0)).ok()?;
    let values = two_held(alloc, &begun, &answered)?;
    let Ok((locks, mut passes)) = Locks::new(alloc, values, 2) else {
        return None;
    };
    let (first, second) = take_both(&mut passes)?;
    let (first, second) = hold_in_threads(rt, &locks, (&begun, &answered), first, second);
    give_both(&mut passes, first, second);
    Some(locks.close(passes))
}

#[test]
fn a_held_call_holds_no_other_lock(rt: HostRuntime) -> Result<(), Fail> {
    let closed = closed_after_holding(&rt, rt.alloc()).ok_or("no memory")?;
    assert_eq!(rt; closed.len(), 2);
    let first = closed.get(0).ok_or("no first")?;
    let second = closed.get(1).ok_or("no second")?;
    assert!(rt;
        first.value.saw,
        "value 1 has answered while the call on value 0 was held"
    );
    assert_eq!(rt; first.entries, 1);
    assert_eq!(rt; second.entries, 1);
    Ok(())
}

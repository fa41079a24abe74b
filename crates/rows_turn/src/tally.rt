//! The lock round a tally, in one thread and in two.
ghost use Rattle.std.specs.Prelude.{◌≡◌, ◌<◌, IfSome};

use ch_turn::{Add, Closed, Pass, Tally, TurnLock};
use std::alloc::Global;
use std::sync::Wait;
use std::test::Fail;
use std::thread::{Threads, join};

/// Two callers in one thread: what three calls are answered, and the closed lock.
fn count_in_turn<R: Wait>(rt: &R, alloc: Global) -> Option<(Vec<u64>, Closed<Tally>)> {
    let (lock, mut passes) = TurnLock::new(alloc, Tally { count: 0 }, 2).ok()?;
    let mut first = passes.take(0)?;
    let mut second = passes.take(1)?;
    let mut answers = Vec::new(alloc);
    answers.push(lock.call(rt, &mut first, &Add).ok()?).ok()?;
    answers.push(lock.call(rt, &mut second, &Add).ok()?).ok()?;
    answers.push(lock.call(rt, &mut first, &Add).ok()?).ok()?;
    lock.meet(&mut second, &mut first);
    passes.give(first);
    passes.give(second);
    Some((answers, lock.close(passes)))
}

#[test]
fn callers_share_one_count(rt: HostRuntime) -> Result<(), Fail> {
    let (answers, closed) = count_in_turn(&rt, rt.alloc()).ok_or("no memory")?;
    assert_eq!(rt; answers.as_slice(), [0, 1, 2].as_slice());
    assert_eq!(rt; closed.entries, 3);
    assert_eq!(rt; closed.value.count, 3);
    Ok(())
}

/// Whether each of these numbers gave a pass, in this order, and of which caller. The first pass is given back before
/// the last take.
fn taken_passes(alloc: Global) -> Option<Vec<Option<u64>>> {
    let (_lock, mut passes) = TurnLock::new(alloc, Tally { count: 0 }, 2).ok()?;
    let mut taken = Vec::new(alloc);
    let second = passes.take(1)?;
    taken.push(Some(second.caller())).ok()?;
    taken.push(passes.take(1).map(|pass| pass.caller())).ok()?;
    taken.push(passes.take(2).map(|pass| pass.caller())).ok()?;
    passes.give(second);
    taken.push(passes.take(1).map(|pass| pass.caller())).ok()?;
    Some(taken)
}

#[test]
fn a_pass_is_taken_once(rt: HostRuntime) -> Result<(), Fail> {
    let taken = taken_passes(rt.alloc()).ok_or("no memory")?;
    assert_eq!(rt; taken.as_slice(), [Some(1), None, None, Some(1)].as_slice());
    Ok(())
}

/// Makes a hundred calls.
fn count<R: Wait>(
    rt: &R,
    alloc: Global,
    lock: &TurnLock<Tally>,
    mut pass: Pass<Tally>,
) -> Option<(Pass<Tally>, Vec<u64>)>
    requires { pass.lock ≡ lock.now }
    ensures { IfSome result (λ r. (r.0.lock ≡ pass.lock) × (r.0.caller ≡ pass.caller)) }
{
    let mut answers = Vec::new(alloc);
    for _ in 0..100 {
        let answer = lock.call(rt, &mut pass, &Add).ok()?;
        answers.push(answer).ok()?;
    }
    Some((pass, answers))
}

/// Makes a hundred calls with each pass, in two threads.
fn count_in_threads<R: Threads + Wait + Sync>(
    rt: &R,
    alloc: Global,
    lock: &TurnLock<Tally>,
    one: Pass<Tally>,
    two: Pass<Tally>,
) -> (
    Option<(Pass<Tally>, Vec<u64>)>,
    Option<(Pass<Tally>, Vec<u64>)>,
)
    requires { (one.lock ≡ lock.now) × (two.lock ≡ lock.now) }
    ensures one { IfSome result.0 (λ r. (r.0.lock ≡ one.lock) × (r.0.caller ≡ one.caller)) }
    ensures two { IfSome result.1 (λ r. (r.0.lock ≡ two.lock) × (r.0.caller ≡ two.caller)) }
{
    join(
        rt,
        move || -> Option<(Pass<Tally>, Vec<u64>)>
            requires { one.lock ≡ lock.now }
            ensures { IfSome result (λ r. (r.0.lock ≡ one.lock) × (r.0.caller ≡ one.caller)) }
        { count(rt, alloc, lock, one) },
        move || -> Option<(Pass<Tally>, Vec<u64>)>
            requires { two.lock ≡ lock.now }
            ensures { IfSome result (λ r. (r.0.lock ≡ two.lock) × (r.0.caller ≡ two.caller)) }
        { count(rt, alloc, lock, two) },
    )
}

/// Two threads make a hundred calls each: how many entries there are, and all answers.
fn count_by_two<R: Threads + Wait + Sync>(rt: &R, alloc: Global) -> Option<(u64, Vec<u64>)> {
    let (lock, mut passes) = TurnLock::new(alloc, Tally { count: 0 }, 2).ok()?;
    let first = passes.take(0)?;
    let second = passes.take(1)?;
    let (one, two) = count_in_threads(rt, alloc, &lock, first, second);
    let (first, mut answers) = one?;
    let (second, mut more) = two?;
    answers.append(&mut more).ok()?;
    passes.give(first);
    passes.give(second);
    let closed = lock.close(passes);
    Some((closed.entries, answers))
}

#[test]
fn two_threads_count_together(rt: HostRuntime) -> Result<(), Fail> {
    let (entries, mut answers) = count_by_two(&rt, rt.alloc()).ok_or("no memory")?;
    answers.sort()?;
    assert_eq!(rt; entries, 200);
    assert_eq!(rt; answers.len(), 200);
    for (i, answer) in answers.iter().enumerate() {
        assert_eq!(rt; *answer, i as u64);
    }
    Ok(())
}

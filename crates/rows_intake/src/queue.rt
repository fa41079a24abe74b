ghost use Rattle.std.specs.Prelude.{◌≡◌};

use ch_intake::{Intake, IntakePass};
use std::alloc::Global;
use std::sync::Wait;
use std::test::Fail;
use std::thread::{Threads, join, yield_now};

/// What is handed back of the numbers below `count`, pushed in order.
fn refused_numbers<R: Wait>(
    rt: &R,
    alloc: Global,
    intake: &Intake<u64>,
    mut pass: IntakePass<u64>,
    count: u64,
) -> Option<Vec<u64>>
    requires { pass.intake ≡ intake.now }
{
    let mut refused = Vec::new(alloc);
    for number in 0..count {
        if let Err(full) = intake.push(rt, &mut pass, number) {
            refused.push(full.item).ok()?;
        }
    }
    Some(refused)
}

/// What so many pops give.
fn given_numbers<R: Wait>(
    rt: &R,
    alloc: Global,
    intake: &Intake<u64>,
    mut pass: IntakePass<u64>,
    count: u64,
) -> Option<Vec<u64>>
    requires { pass.intake ≡ intake.now }
{
    let mut given = Vec::new(alloc);
    for _ in 0..count {
        if let Some(number) = intake.pop(rt, &mut pass) {
            given.push(number).ok()?;
        }
    }
    Some(given)
}

/// So many pushes, and then as many pops: what was handed back, and what came out.
fn refused_and_given<R: Wait>(rt: &R, alloc: Global, count: u64) -> Option<(Vec<u64>, Vec<u64>)> {
    let (intake, mut passes) = Intake::new(alloc, 2).ok()?;
    let refused = refused_numbers(rt, alloc, &intake, passes.take(0)?, count)?;
    let given = given_numbers(rt, alloc, &intake, passes.take(1)?, count)?;
    Some((refused, given))
}

#[test]
fn an_intake_has_128_places(rt: HostRuntime) -> Result<(), Fail> {
    let (refused, given) = refused_and_given(&rt, rt.alloc(), 130).ok_or("no memory")?;
    assert_eq!(rt; refused.as_slice(), [128, 129].as_slice());
    assert_eq!(rt; given.len(), 128);
    for (place, number) in given.iter().enumerate() {
        assert_eq!(rt; *number, place as u64);
    }
    Ok(())
}

/// Whether each of these numbers gave a pass, in this order, and of which caller.
fn taken_passes(alloc: Global) -> Option<Vec<Option<u64>>> {
    let (_intake, mut passes) = Intake::<u64>::new(alloc, 2).ok()?;
    let mut taken = Vec::new(alloc);
    for i in [1, 1, 2, 0] {
        taken.push(passes.take(i).map(|pass| pass.caller())).ok()?;
    }
    Some(taken)
}

#[test]
fn a_pass_is_taken_once(rt: HostRuntime) -> Result<(), Fail> {
    let taken = taken_passes(rt.alloc()).ok_or("no memory")?;
    assert_eq!(rt; taken.as_slice(), [Some(1), None, None, Some(0)].as_slice());
    Ok(())
}

/// Pushes the number, again and again until there is room.
fn push_number<R: Wait>(rt: &R, intake: &Intake<u64>, pass: &mut IntakePass<u64>, number: u64)
    requires { pass.old.intake ≡ intake.now }
    ensures { pass.new.intake ≡ pass.old.intake }
{
    for _ in rt.forever() {
        if intake.push(rt, pass, number).is_ok() {
            return;
        }
        yield_now();
    }
    unreachable!()
}

/// Pops again and again until there is a number.
fn pop_number<R: Wait>(rt: &R, intake: &Intake<u64>, pass: &mut IntakePass<u64>) -> u64
    requires { pass.old.intake ≡ intake.now }
    ensures { pass.new.intake ≡ pass.old.intake }
{
    for _ in rt.forever() {
        if let Some(number) = intake.pop(rt, pass) {
            return number;
        }
        yield_now();
    }
    unreachable!()
}

/// Pushes the numbers below `count`, in order.
fn push_numbers<R: Wait>(rt: &R, intake: &Intake<u64>, mut pass: IntakePass<u64>, count: u64)
    requires { pass.intake ≡ intake.now }
{
    for number in 0..count {
        push_number(rt, intake, &mut pass, number);
    }
}

/// Pops so many numbers.
fn pop_numbers<R: Wait>(
    rt: &R,
    alloc: Global,
    intake: &Intake<u64>,
    mut pass: IntakePass<u64>,
    count: u64,
) -> Option<Vec<u64>>
    requires { pass.intake ≡ intake.now }
{
    let mut numbers = Vec::new(alloc);
    for _ in 0..count {
        numbers.push(pop_number(rt, intake, &mut pass)).ok()?;
    }
    Some(numbers)
}

/// What one thread pops of the numbers below `count`, which another pushes meanwhile.
fn handed_over<R: Threads + Wait + Sync>(rt: &R, alloc: Global, count: u64) -> Option<Vec<u64>> {
    let (intake, mut passes) = Intake::new(alloc, 2).ok()?;
    let giver = passes.take(0)?;
    let taker = passes.take(1)?;
    let ((), numbers) = in_two_threads(rt, alloc, &intake, (giver, taker), count);
    numbers
}

/// Both at once.
fn in_two_threads<R: Threads + Wait + Sync>(
    rt: &R,
    alloc: Global,
    intake: &Intake<u64>,
    passes: (IntakePass<u64>, IntakePass<u64>),
    count: u64,
) -> ((), Option<Vec<u64>>)
    requires { (passes.0.intake ≡ intake.now) × (passes.1.intake ≡ intake.now) }
{
    let (giver, taker) = passes;
    join(
        rt,
        move ||
            requires { giver.intake ≡ intake.now }
        { push_numbers(rt, intake, giver, count) },
        move || -> Option<Vec<u64>>
            requires { taker.intake ≡ intake.now }
        { pop_numbers(rt, alloc, intake, taker, count) },
    )
}

#[test]
fn what_one_thread_pushes_another_pops_in_order(rt: HostRuntime) -> Result<(), Fail> {
    let numbers = handed_over(&rt, rt.alloc(), 2_000).ok_or("no memory")?;
    assert_eq!(rt; numbers.len(), 2_000);
    for (place, number) in numbers.iter().enumerate() {
        assert_eq!(rt; *number, place as u64);
    }
    Ok(())
}

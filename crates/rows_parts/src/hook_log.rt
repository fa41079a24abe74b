use ch_base::{Hook, Memory, Text};
use ch_hooklog::HookLog;
use std::alloc::Global;
use std::test::Fail;

#[test]
fn events_wait_for_the_take(rt: HostRuntime) -> Result<(), Fail> {
    let alloc: Global = rt.alloc();
    let mut log = HookLog::new(alloc);
    assert!(rt; log.take_all().is_empty());
    log.reserve(2)?;
    log.put(Hook::Occupied {
        channel: Text::of(alloc, "a")?,
    });
    log.put(Hook::Vacated {
        channel: Text::of(alloc, "a")?,
    });
    let taken = log.take_all();
    assert_eq!(rt; taken.len(), 2);
    assert!(rt; matches!(taken.get(0), Some(Hook::Occupied { .. })));
    assert!(rt; matches!(taken.get(1), Some(Hook::Vacated { .. })));
    assert!(rt; log.take_all().is_empty());
    Ok(())
}

fn hook_word(hook: &Hook) -> &'static str {
    match hook {
        Hook::Occupied { .. } => "occupied ",
        Hook::Vacated { .. } => "vacated ",
        _ => "another ",
    }
}

/// What is taken of a log in which the notice of `a` was held at 10 and the channel was occupied again at the moment;
/// and how many notices are then due at the next one.
fn occupied_again(alloc: Global, at: u16, next: u16) -> Result<String, Fail> {
    let mut log = HookLog::new(alloc);
    log.reserve(1)?;
    log.hold(Text::of(alloc, "a")?, 10);
    log.reserve(1 + log.due(u64::from(at)))?;
    let channel = Text::of(alloc, "a")?;
    log.make(vec![in alloc; Hook::Occupied { channel }]?, u64::from(at));
    let mut words = String::new(alloc);
    for hook in log.take_all().as_slice() {
        words.push_str(hook_word(hook))?;
    }
    let due = format!(in alloc; "{}", log.due(u64::from(next)))?;
    words.push_str(due.as_str())?;
    Ok(words)
}

#[test]
fn vacated_notices_are_held(rt: HostRuntime) -> Result<(), Fail> {
    let alloc: Global = rt.alloc();
    let table: [(u16, u16, &str); 2] = [(3_009, 3_010, "0"), (3_010, 9_000, "vacated occupied 0")];
    for (at, next, want) in table {
        let got = occupied_again(alloc, at, next)?;
        assert_eq!(rt; got.as_str(), want);
    }
    Ok(())
}

/// How many events are taken of a log in which the notice of `a` was held at 10, once what is due at the moment is
/// released; the notice of another channel is cancelled before.
fn released(alloc: Global, channel: &str, at: u16) -> Result<u64, Memory> {
    let mut log = HookLog::new(alloc);
    log.reserve(1)?;
    log.hold(Text::of(alloc, "a")?, 10);
    log.cancel(&Text::of(alloc, channel)?);
    let due = log.due(u64::from(at));
    log.reserve(due)?;
    log.release(u64::from(at));
    Ok(log.take_all().len() as u64)
}

#[test]
fn due_notices_are_released(rt: HostRuntime) -> Result<(), Fail> {
    let alloc: Global = rt.alloc();
    let counts = (
        released(alloc, "b", 3_009)?,
        released(alloc, "b", 3_010)?,
        released(alloc, "a", 3_010)?,
    );
    assert_eq!(rt; counts, (0, 1, 0));
    Ok(())
}

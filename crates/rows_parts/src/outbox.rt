use ch_base::{Frame, Memory, Shared};
use ch_outbox::Outbox;
use ch_print::Press;
use std::alloc::Global;
use std::test::Fail;

fn ping(press: &mut Press, socket: u64) -> Result<Shared, Memory> {
    let printed = press.print(Frame::Ping)?;
    Ok(Shared::new(socket, printed))
}

/// An outbox in which two frames wait for owner 5, and one for owner 0.
fn filled(alloc: Global) -> Result<Outbox, Memory> {
    let mut press = Press::new(alloc);
    let first = ping(&mut press, 1)?;
    let second = ping(&mut press, 2)?;
    let other = ping(&mut press, 3)?;
    let mut outbox = Outbox::new(alloc);
    outbox.reserve(5, 2)?;
    outbox.put(5, first);
    outbox.put(5, second);
    outbox.reserve(0, 1)?;
    outbox.put(0, other);
    Ok(outbox)
}

#[test]
fn frames_wait_for_their_owner(rt: HostRuntime) -> Result<(), Fail> {
    let alloc: Global = rt.alloc();
    assert!(rt; Outbox::new(alloc).take_all(63).is_empty());
    let mut outbox = filled(alloc)?;
    let taken = outbox.take_all(5);
    assert_eq!(rt; taken.len(), 2);
    assert_eq!(rt; taken.get(0).map(|item| item.socket()), Some(1));
    assert_eq!(rt; taken.get(1).map(|item| item.socket()), Some(2));
    assert!(rt; outbox.take_all(5).is_empty());
    assert_eq!(rt; outbox.take_all(0).len(), 1);
    Ok(())
}

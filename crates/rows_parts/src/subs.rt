use ch_base::{Member, Text};
use ch_subs::{JoinedAs, Subs};
use std::alloc::Global;
use std::test::Fail;

#[test]
fn sockets_join_and_leave(rt: HostRuntime) -> Result<(), Fail> {
    let alloc: Global = rt.alloc();
    let a = Text::of(alloc, "a")?;
    let b = Text::of(alloc, "b")?;
    let member = Member {
        user_id: Text::of(alloc, "u")?,
        info: Text::of(alloc, "1")?,
    };
    let mut subs = Subs::new(alloc);
    assert!(rt; subs.join(1, &b, 5, Some(&member))? == JoinedAs::Fresh);
    assert!(rt; subs.join(1, &b, 6, None)? == JoinedAs::Already);
    assert!(rt; subs.join(1, &a, 5, None)? == JoinedAs::Fresh);
    assert!(rt; subs.join(2, &b, 6, None)? == JoinedAs::Fresh);
    assert_eq!(rt; subs.count(&b), 2);
    let first = subs.sub(&b, 0);
    assert_eq!(rt; first.owner, 5);
    assert_eq!(rt; first.member.as_ref().map(|m| m.info.as_str()), Some("1"));
    assert_eq!(rt; subs.channels(1), 2);
    assert_eq!(rt; subs.channel(1, 0).as_str(), "a");
    assert_eq!(rt;
        subs.next_name(Some(&a)).map(|name| name.as_str()),
        Some("b")
    );
    assert_eq!(rt; subs.lost(1), 2);
    assert_eq!(rt; (subs.count(&a), subs.count(&b)), (0, 1));
    Ok(())
}

use ch_base::Text;
use ch_watch::{Holder, Watches};
use std::alloc::Global;
use std::test::Fail;

#[test]
fn sockets_sign_in_and_watch(rt: HostRuntime) -> Result<(), Fail> {
    let alloc: Global = rt.alloc();
    let a = Text::of(alloc, "a")?;
    let b = Text::of(alloc, "b")?;
    let mut watches = Watches::new(alloc);
    assert!(rt; watches.sign_in(1, &b, 5)?);
    assert!(rt; watches.sign_in(1, &a, 5)?);
    assert!(rt; watches.sign_in(2, &b, 6)?);
    assert!(rt; !watches.sign_in(1, &b, 6)?);
    let first = Holder {
        socket: 1,
        owner: 5,
    };
    assert_eq!(rt; watches.sockets(&b), 2);
    assert!(rt; watches.socket(&b, 0) == first);
    assert_eq!(rt; watches.users_of(1), 2);
    assert_eq!(rt; watches.user_of(1, 0).as_str(), "a");
    assert!(rt; watches.watch(1, &b, 5)?);
    assert!(rt; !watches.watch(1, &b, 7)?);
    assert_eq!(rt; watches.watchers(&b), 1);
    assert!(rt; watches.watcher(&b, 0) == first);
    assert!(rt; watches.lost(1) == (2, 1));
    assert!(rt; watches.is_online(&b) && !watches.is_online(&a));
    Ok(())
}

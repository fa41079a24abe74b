use ch_base::Bytes;
use ch_edge::{Accept, Accepted, Dial, Dialed, Park, Pause, Wake};
use ch_net::{Link, LinkGot, LinkWrote, Recv, Wire};
use ch_wswire::{Pauses, Poller, TcpAccept, TcpDial};
use std::alloc::Global;
use std::net::{IpAddr, Ipv4Addr, SocketAddr};
use std::test::Fail;
use std::time::Duration;

/// How many rests a test makes at most until something has come.
const MOST_RESTS: u32 = 100;

#[test]
fn a_dialled_link_and_one_that_came_in_are_the_two_ends(rt: HostRuntime) -> Result<(), Fail> {
    let alloc: Global = rt.alloc();
    let pause = Duration::from_millis(200);
    let local = SocketAddr::new(IpAddr::V4(Ipv4Addr::LOCALHOST), 0);
    let mut accept = TcpAccept::new(&rt, alloc, local, pause)?;
    assert!(rt; matches!(&accept.accept(), Accepted::NotYet));
    let port = accept.local_addr()?.port();
    let host = String::from_str(alloc, "127.0.0.1")?;
    let mut dial = TcpDial::new(rt.clone()?, alloc, host, port);
    let Dialed::Made(mut peer) = dial.dial() else {
        panic!(rt; "nobody listens");
    };
    let Accepted::Made(mut link) = accept.accept() else {
        panic!(rt; "nobody came in");
    };
    let pauses = Pauses {
        short: Duration::from_millis(5),
        long: pause,
    };
    let mut poller = Poller::new(rt.clone()?, &rt, alloc, 4, pauses)?;
    poller.watch(&mut link);
    let mut buf = [0_u8; 8];
    assert_eq!(rt; link.read(&mut buf), LinkGot::NotYet);
    assert_eq!(rt; peer.read(&mut buf), LinkGot::NotYet);
    assert_eq!(rt; peer.write(b"hi"), LinkWrote::Wrote(2));
    let mut got = LinkGot::NotYet;
    for _ in 0..MOST_RESTS {
        poller.park(Pause::Long);
        got = link.read(&mut buf);
        if got != LinkGot::NotYet {
            break;
        }
    }
    assert_eq!(rt; got, LinkGot::Read(2));
    assert_eq!(rt; link.write(b"yo"), LinkWrote::Wrote(2));
    assert_eq!(rt; peer.read(&mut buf), LinkGot::Read(2));
    let waker = poller.waker()?;
    waker.wake();
    poller.park(Pause::Long);
    let Ok(mut wire) = link.upgrade(Bytes::new(alloc)) else {
        panic!(rt; "no memory");
    };
    drop(peer);
    for _ in 0..MOST_RESTS {
        poller.park(Pause::Long);
        if matches!(&wire.recv(), Recv::Gone) {
            return Ok(());
        }
        let _ = wire.pump();
    }
    panic!(rt; "the end was never found")
}

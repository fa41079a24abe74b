use crate::client::subscribe_and_take;
use ch_base::Text;
use ch_config::{Config, Target};
use ch_serve::serve;
use ch_server::{pollers, post_of};
use ch_wswire::{Pauses, TcpAccept};
use std::alloc::Global;
use std::net::{IpAddr, Ipv4Addr, SocketAddr, TcpListener};
use std::test::Fail;
use std::thread::join;
use std::time::Duration;

/// How many turns each of the server's threads takes.
const TURNS: u64 = 2000;

#[test]
fn a_socket_subscribes_and_its_webhook_comes(rt: HostRuntime) -> Result<(), Fail> {
    let alloc: Global = rt.alloc();
    let pause = Duration::from_millis(5);
    let pauses = Pauses {
        short: pause,
        long: pause,
    };
    let local = SocketAddr::new(IpAddr::V4(Ipv4Addr::LOCALHOST), 0);
    let receiver = TcpListener::bind(&rt, local)?;
    let target = Target {
        host: Text::of(alloc, "127.0.0.1")?,
        port: receiver.local_addr()?.port(),
        path: Text::of(alloc, "/webhook")?,
    };
    let config = Config::built_in(alloc)?;
    let accept = TcpAccept::new(&rt, alloc, local, pause)?;
    let port = accept.local_addr()?.port();
    let clocks = pollers(&rt, alloc, config.workers + 1, pauses)?;
    let post = post_of(&rt, alloc, &target)?;
    let (ran, told) = join(
        &rt,
        || serve(&rt, alloc, &config, accept, clocks, Some(post), TURNS),
        || subscribe_and_take(&rt, alloc, port, receiver),
    );
    let told = told?;
    assert_eq!(rt; ran.status, 0);
    assert!(rt; told.head.contains("\r\nSec-WebSocket-Accept: s3pPLMBiTxaQ9kYGzzhZRbK+xOo=\r\n"));
    assert!(rt; told.frames[0].contains("\"pusher:connection_established\""));
    assert_eq!(rt;
        told.frames[1].as_str(),
        r#"{"event":"pusher_internal:subscription_succeeded","channel":"a","data":"{}"}"#
    );
    assert!(rt;
        told.webhook.ends_with(r#","events":[{"name":"channel_occupied","channel":"a"}]}"#)
    );
    Ok(())
}

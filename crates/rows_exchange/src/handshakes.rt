use crate::exchanges::{exchanged, last_turn};
use crate::links::quiet_link;
use ch_base::Text;
use ch_config::Config;
use ch_desk::Bench;
use ch_exchange::{ExTurn, Exchange};
use std::alloc::Global;
use std::test::Fail;

/// The key and the accept value are those of RFC 6455, section 1.3.
const HANDSHAKE: &str =
    "GET /app/k?protocol=7 HTTP/1.1\r\nHost: localhost\r\nConnection: keep-alive, Upgrade\r\nUpgrade: websocket\r\nSec-WebSocket-Version: 13\r\nSec-WebSocket-Key: dGhlIHNhbXBsZSBub25jZQ==\r\n\r\nrest";

const SWITCHING: &str =
    "HTTP/1.1 101 Switching Protocols\r\nUpgrade: websocket\r\nConnection: Upgrade\r\nSec-WebSocket-Accept: s3pPLMBiTxaQ9kYGzzhZRbK+xOo=\r\n\r\n";

const OLD_HANDSHAKE: &str =
    "GET /app/k?protocol=7 HTTP/1.1\r\nConnection: Upgrade\r\nUpgrade: websocket\r\nSec-WebSocket-Version: 12\r\nSec-WebSocket-Key: dGhlIHNhbXBsZSBub25jZQ==\r\n\r\n";

const VERSION_WANTED: &str =
    "HTTP/1.1 426 Upgrade Required\r\nContent-Type: application/json\r\nContent-Length: 31\r\nSec-WebSocket-Version: 13\r\nConnection: close\r\n\r\n{\"error\":\"version 13 required\"}";

#[test]
fn a_handshake_is_answered(rt: HostRuntime) -> Result<(), Fail> {
    let alloc: Global = rt.alloc();
    let config = Config::built_in(alloc)?;
    let mut bench = Bench::new(alloc, config.chan_shards, config.user_shards)?;
    let mut exchange = Exchange::new(alloc, quiet_link(alloc, HANDSHAKE)?, 0);
    let turn = last_turn(&rt, &mut exchange, &mut bench, &config, 0);
    assert_eq!(rt;
        turn,
        ExTurn::Upgrade(Text::of(alloc, "/app/k?protocol=7")?)
    );
    let (link, rest) = exchange.into_parts();
    assert_eq!(rt; link.written(), SWITCHING.as_bytes());
    assert_eq!(rt; rest.as_slice(), b"rest".as_slice());
    let (turn, written) = exchanged(&rt, alloc, quiet_link(alloc, OLD_HANDSHAKE)?, 1_000_000)?;
    assert_eq!(rt; turn, ExTurn::Done);
    assert_eq!(rt; written.as_slice(), VERSION_WANTED.as_bytes());
    Ok(())
}

//! A worker whose connection fails at each of its calls in turn.
ghost use Rattle.ch_config.specs.Config.{IsConfig};

use crate::letters::letters;
use ch_config::Config;
use ch_desk::Bench;
use ch_net::{Arrival, MemArrivals, MemLink, OtherSide, Script};
use ch_worker::{NoGate, Worker};
use std::alloc::Global;
use std::sync::Wait;
use std::test::Fail;

/// The handshake of RFC 6455, section 1.3, and then a line that subscribes to the channel `a`.
const SUBSCRIBER: &str =
    "GET /app/k?protocol=7 HTTP/1.1\r\nHost: localhost\r\nConnection: Upgrade\r\nUpgrade: websocket\r\nSec-WebSocket-Version: 13\r\nSec-WebSocket-Key: dGhlIHNhbXBsZSBub25jZQ==\r\n\r\n{\"event\":\"pusher:subscribe\",\"data\":{\"channel\":\"a\"}}\n";

/// The calls on the channel shard in five turns of a worker, whose one connection fails at this call.
fn calls_in_five_turns<R: Wait>(
    rt: &R,
    alloc: Global,
    config: &Config,
    call: usize,
) -> Result<String, Fail>
    requires { IsConfig config.now }
{
    let script = Script::new(vec![in alloc; call]?, Vec::new(alloc));
    let bytes = SUBSCRIBER.as_bytes().to_vec(alloc)?;
    let link = MemLink::new(alloc, bytes, Vec::new(alloc), OtherSide::Stays, script);
    let arrival = Arrival { number: 1, link };
    let mut arrivals = MemArrivals::new(vec![in alloc; arrival]?, Vec::new(alloc));
    let mut bench = Bench::new(alloc, config.chan_shards, config.user_shards)?;
    let mut worker = Worker::new(alloc, config, 0, NoGate)?;
    worker.turn(rt, &mut bench, &mut arrivals, 0);
    worker.turn(rt, &mut bench, &mut arrivals, 0);
    worker.turn(rt, &mut bench, &mut arrivals, 0);
    worker.turn(rt, &mut bench, &mut arrivals, 0);
    worker.turn(rt, &mut bench, &mut arrivals, 0);
    Ok(letters(alloc, &bench)?)
}

#[test]
fn a_socket_that_fails_is_lost_in_the_next_turn(rt: HostRuntime) -> Result<(), Fail> {
    let alloc: Global = rt.alloc();
    let config = Config::built_in(alloc)?;
    let rows = [
        // the handshake's read and write, in the first turn
        (1, "TTTTT"),
        (2, "TTTTT"),
        // the first frame, the pump and the message, in the second turn
        (3, "TTTTT"),
        (4, "TTTTT"),
        (5, "TTTTT"),
        // the answer, the pump and the next message, in the third turn
        (6, "TTJTTXT"),
        (7, "TTJTTXT"),
        (8, "TTJTTXT"),
        // the pump and the next message, in the fourth turn
        (9, "TTJTTTX"),
        (10, "TTJTTTX"),
        // and in the fifth
        (11, "TTJTTT"),
        (12, "TTJTTT"),
    ];
    for (call, calls) in rows {
        let got = calls_in_five_turns(&rt, alloc, &config, call)?;
        assert_eq!(rt; got.as_str(), calls, "at call {call}");
    }
    Ok(())
}

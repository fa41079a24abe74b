ghost use Rattle.std.specs.Prelude.{◌≡◌, IfOk, IsTrue};
ghost use Rattle.ch_config.specs.Config.{IsConfig};
ghost use Rattle.ch_desk.specs.Views.{IsDeskOf};

use crate::noted::{NotedLink, Notes, has_noted};
use ch_base::Memory;
use ch_config::Config;
use ch_desk::{Bench, Desk};
use ch_house::{House, HouseDesk};
use ch_net::{Arrival, MemArrivals, MemLink, OtherSide, Script};
use ch_worker::{NoGate, Worker, WorkerTurn};
use std::alloc::Global;
use std::cell::RefCell;
use std::sync::Wait;
use std::test::Fail;

/// The handshake of RFC 6455, section 1.3, and then a line that subscribes to the channel `a`.
const SUBSCRIBER: &str =
    "GET /app/k?protocol=7 HTTP/1.1\r\nHost: localhost\r\nConnection: Upgrade\r\nUpgrade: websocket\r\nSec-WebSocket-Version: 13\r\nSec-WebSocket-Key: dGhlIHNhbXBsZSBub25jZQ==\r\n\r\n{\"event\":\"pusher:subscribe\",\"data\":{\"channel\":\"a\"}}\n";

/// An event on the channels `a` and `b`, signed at the second 1,000.
const TRIGGER: &str =
    "POST /apps/1/events?auth_key=k&auth_timestamp=1000&auth_version=1.0&body_md5=b55eb3d3959bd127ca957fb15cd39e11&auth_signature=7327682f4bc5f68129ab7f2ce1026a84257cd36b8d45d7ba182b1a5c080bfd34 HTTP/1.1\r\nHost: localhost\r\nContent-Length: 52\r\n\r\n{\"name\":\"e\",\"channels\":[\"a\",\"b\"],\"data\":\"{\\\"x\\\":1}\"}";

const OPENED: &str =
    r#"{"event":"pusher:connection_established","data":"{\"socket_id\":\"0.1\",\"activity_timeout\":120}"}"#;

const SUBSCRIBED: &str =
    r#"{"event":"pusher_internal:subscription_succeeded","channel":"a","data":"{}"}"#;

const EVENT: &str = r#"{"event":"e","channel":"a","data":"{\"x\":1}"}"#;

/// A connection over which these bytes come, and then what the other side does.
fn arrival_of<'a>(
    alloc: Global,
    number: u64,
    bytes: &str,
    other_side: OtherSide,
    notes: &'a Notes,
) -> Result<Arrival<NotedLink<'a>>, Memory>
    ensures { IfOk result (λ a. a.number ≡ number) }
{
    let never = Script::new(Vec::new(alloc), Vec::new(alloc));
    let bytes = bytes.as_bytes().to_vec(alloc)?;
    let link = MemLink::new(alloc, bytes, Vec::new(alloc), other_side, never);
    Ok(Arrival {
        number,
        link: NotedLink { alloc, link, notes },
    })
}

/// What a worker does with a connection that subscribes, and one that publishes: the answers of its turns, how
/// many it took, and how many connections it took.
fn serve_both<R: Wait>(
    rt: &R,
    alloc: Global,
    config: &Config,
    notes: &Notes,
) -> Result<([WorkerTurn; 5], u64, u64), Memory>
    requires { IsConfig config.now }
{
    let subscriber = arrival_of(alloc, 1, SUBSCRIBER, OtherSide::HangsUp, notes)?;
    let back_end = arrival_of(alloc, 2, TRIGGER, OtherSide::Stays, notes)?;
    let mut arrivals = MemArrivals::new(vec![in alloc; subscriber, back_end]?, Vec::new(alloc));
    let mut bench = Bench::new(alloc, config.chan_shards, config.user_shards)?;
    let mut worker = Worker::new(alloc, config, 0, NoGate)?;
    let handshake = worker.turn(rt, &mut bench, &mut arrivals, 1_000_000);
    // The subscription, and the event.
    let both = worker.turn(rt, &mut bench, &mut arrivals, 1_000_000);
    // The frames, after which the other side hangs up.
    let frames = worker.turn(rt, &mut bench, &mut arrivals, 1_000_000);
    let loss = worker.turn(rt, &mut bench, &mut arrivals, 1_000_000);
    let nothing = worker.turn(rt, &mut bench, &mut arrivals, 1_000_000);
    let turns = [handshake, both, frames, loss, nothing];
    Ok((turns, worker.turns(), worker.taken()))
}

#[test]
fn a_socket_subscribes_hears_and_is_lost(rt: HostRuntime) -> Result<(), Fail> {
    let alloc: Global = rt.alloc();
    let config = Config::built_in(alloc)?;
    let notes = RefCell::new(Vec::new(alloc));
    let (turns, count, taken) = serve_both(&rt, alloc, &config, &notes)?;
    let moved = WorkerTurn::Moved;
    assert_eq!(rt; turns, [moved, moved, moved, moved, WorkerTurn::Idle]);
    assert_eq!(rt; (count, taken), (5, 2));
    assert!(rt; has_noted(&notes, &[OPENED, SUBSCRIBED, EVENT]));
    Ok(())
}

/// Whether the desk has the shards of the configuration.
fn has_shards<R, D: Desk<R>>(_rt: &R, desk: &D, config: &Config) -> bool
    ensures { IsTrue result → IsDeskOf config.now (D.view desk.now) }
{
    desk.chan_shards() == config.chan_shards && desk.user_shards() == config.user_shards
}

/// The connections of a worker, of which there is one.
fn one_arrival<'a>(
    alloc: Global,
    bytes: &str,
    notes: &'a Notes,
) -> Result<MemArrivals<NotedLink<'a>>, Memory> {
    let arrival = arrival_of(alloc, 1, bytes, OtherSide::Stays, notes)?;
    Ok(MemArrivals::new(vec![in alloc; arrival]?, Vec::new(alloc)))
}

/// Two workers, each at its desk: one serves a connection that subscribes, the other one that publishes. It
/// answers whether the second is idle then.
fn serve_apart<R: Wait>(
    rt: &R,
    alloc: Global,
    config: &Config,
    desks: (HouseDesk, HouseDesk),
    notes: &Notes,
) -> Result<bool, Memory>
    requires config { IsConfig config.now }
{
    let (mut listening, mut publishing) = desks;
    let mut subscriber = one_arrival(alloc, SUBSCRIBER, notes)?;
    let mut back_end = one_arrival(alloc, TRIGGER, notes)?;
    let mut listener = Worker::new(alloc, config, 0, NoGate)?;
    let mut publisher = Worker::new(alloc, config, 0, NoGate)?;
    if !has_shards(rt, &listening, config) || !has_shards(rt, &publishing, config) {
        return Ok(false);
    }
    listener.turn(rt, &mut listening, &mut subscriber, 1_000_000);
    listener.turn(rt, &mut listening, &mut subscriber, 1_000_000);
    publisher.turn(rt, &mut publishing, &mut back_end, 1_000_000);
    listener.turn(rt, &mut listening, &mut subscriber, 1_000_000);
    Ok(publisher.idle())
}

#[test]
fn a_worker_takes_the_frame_that_another_published(rt: HostRuntime) -> Result<(), Fail> {
    let alloc: Global = rt.alloc();
    let config = Config::built_in(alloc)?;
    let notes = RefCell::new(Vec::new(alloc));
    let (house, mut passes) = House::new(alloc, 1, 1, 2)?;
    let (Some(first), Some(second)) = (passes.take(0), passes.take(1)) else {
        return Err(Fail::from("no passes"));
    };
    let desks = (
        HouseDesk::new(&house, first),
        HouseDesk::new(&house, second),
    );
    assert!(rt; serve_apart(&rt, alloc, &config, desks, &notes)?);
    assert!(rt; has_noted(&notes, &[OPENED, SUBSCRIBED, EVENT]));
    Ok(())
}

ghost use Rattle.std.specs.Prelude.{IfOk};
ghost use Rattle.ch_config.specs.Config.{IsConfig};
ghost use Rattle.ch_config.specs.declared.config.Config.{Config};
ghost use Rattle.ch_live.specs.Peers.{IsPeerOver};

use ch_base::{Frame, Memory, Text};
use ch_config::Config;
use ch_desk::Bench;
use ch_live::{Delivered, End, Farewell, Live, Turn};
use ch_net::{MemWire, Message, OtherSide, Script};
use ch_session::Session;
use std::alloc::Global;
use std::test::Fail;

const OPENED: &str =
    r#"{"event":"pusher:connection_established","data":"{\"socket_id\":\"0.1\",\"activity_timeout\":120}"}"#;

const SUBSCRIBE: &str = r#"{"event":"pusher:subscribe","data":{"channel":"a"}}"#;

const UNSUBSCRIBE: &str = r#"{"event":"pusher:unsubscribe","data":{"channel":"b"}}"#;

const NOT_SUBSCRIBED: &str =
    r#"{"event":"pusher:error","data":{"message":"not subscribed","code":4314}}"#;

const REFUSED: &str =
    r#"{"event":"pusher:error","data":{"message":"application does not exist","code":4001}}"#;

const PING: &str = r#"{"event":"pusher:ping","data":{}}"#;

/// A wire over which these texts come, and then what the other side does. The calls with these numbers fail
/// or ask for patience.
fn wire_of(
    alloc: Global,
    texts: &[&str],
    other_side: OtherSide,
    failing: Vec<usize>,
    stalling: Vec<usize>,
) -> Result<MemWire, Memory> {
    let mut messages = Vec::new(alloc);
    for text in texts {
        messages.push(Message::Text(Text::of(alloc, text)?))?;
    }
    Ok(MemWire::new(alloc, messages, other_side, Script::new(failing, stalling)))
}

/// The first socket of the app with the key `k`, opened at the moment 0.
fn live_of(alloc: Global, config: &Config, wire: MemWire) -> Result<Live<MemWire>, Fail>
    requires { IsConfig config.now }
    ensures { IfOk result (λ live. IsPeerOver config.now live.peer) }
{
    let Ok(session) = Session::start(alloc, config, 0, 1, "/app/k?protocol=7", 0) else {
        return Err(Fail::from("no session"));
    };
    match Live::new(alloc, session, wire) {
        Ok(live) => Ok(live),
        Err(_) => Err(Fail::from("no room")),
    }
}

/// The end of a connection with this code.
fn ended(code: u16, farewell: Farewell) -> Turn {
    Turn::Ended(End::Code { code, farewell })
}

/// Whether the wire was sent these texts.
fn has_sent(wire: &MemWire, texts: &[&str]) -> bool {
    let sent = wire.sent();
    sent.len() == texts.len()
        && sent
            .iter()
            .zip(texts)
            .all(|(text, wanted)| text.as_str() == *wanted)
}

#[test]
fn a_socket_is_opened_and_heard(rt: HostRuntime) -> Result<(), Fail> {
    let alloc: Global = rt.alloc();
    let config = Config::built_in(alloc)?;
    let mut bench = Bench::new(alloc, config.chan_shards, config.user_shards)?;
    let wire = wire_of(
        alloc,
        &[SUBSCRIBE, UNSUBSCRIBE],
        OtherSide::Stays,
        Vec::new(alloc),
        Vec::new(alloc),
    )?;
    let mut live = live_of(alloc, &config, wire)?;
    assert_eq!(rt; live.turn(&rt, &mut bench, &config, 0), Turn::Moved);
    assert_eq!(rt; live.turn(&rt, &mut bench, &config, 1), Turn::Moved);
    assert_eq!(rt; live.turn(&rt, &mut bench, &config, 2), Turn::Moved);
    assert_eq!(rt; live.turn(&rt, &mut bench, &config, 3), Turn::Idle);
    assert_eq!(rt; live.turn(&rt, &mut bench, &config, 120_001), Turn::Moved);
    assert!(rt; has_sent(&live.wire, &[OPENED, NOT_SUBSCRIBED, PING]));
    assert!(rt; live.owes());
    assert!(rt; live.lose(&rt, &mut bench, 5).is_ok());
    assert!(rt; !live.owes());
    Ok(())
}

#[test]
fn a_wire_that_hangs_up_ends_its_socket(rt: HostRuntime) -> Result<(), Fail> {
    let alloc: Global = rt.alloc();
    let config = Config::built_in(alloc)?;
    let mut bench = Bench::new(alloc, config.chan_shards, config.user_shards)?;
    let wire = wire_of(
        alloc,
        &[],
        OtherSide::HangsUp,
        Vec::new(alloc),
        Vec::new(alloc),
    )?;
    let mut live = live_of(alloc, &config, wire)?;
    let turn = live.turn(&rt, &mut bench, &config, 0);
    assert_eq!(rt; turn, Turn::Ended(End::Peer));
    assert!(rt; has_sent(&live.wire, &[OPENED]));
    Ok(())
}

/// The first turn over a wire of which this call fails.
fn first_turn_failing<R>(rt: &R, alloc: Global, config: &Config, call: usize) -> Result<Turn, Fail>
    requires { IsConfig config.now }
{
    let mut bench = Bench::new(alloc, config.chan_shards, config.user_shards)?;
    let failing = vec![in alloc; call]?;
    let wire = wire_of(
        alloc,
        &[SUBSCRIBE],
        OtherSide::Stays,
        failing,
        Vec::new(alloc),
    )?;
    let mut live = live_of(alloc, config, wire)?;
    Ok(live.turn(rt, &mut bench, config, 0))
}

#[test]
fn a_wire_that_fails_ends_its_socket(rt: HostRuntime) -> Result<(), Fail> {
    let alloc: Global = rt.alloc();
    let config = Config::built_in(alloc)?;
    for call in 1..4_usize {
        let turn = first_turn_failing(&rt, alloc, &config, call)?;
        assert_eq!(rt; turn, Turn::Ended(End::Fault));
    }
    Ok(())
}

/// How many of 1,030 pings are kept.
fn pings_kept(live: &mut Live<MemWire>) -> usize
    ensures { (config : Config) → IsPeerOver config live.old.peer → IsPeerOver config live.new.peer }
{
    let mut kept = 0_usize;
    for _ping in 0..1_030_u64 {
        if live.deliver(Frame::Ping) == Delivered::Kept {
            kept = kept.saturating_add(1);
        }
    }
    kept
}

#[test]
fn a_socket_that_takes_nothing_is_cut(rt: HostRuntime) -> Result<(), Fail> {
    let alloc: Global = rt.alloc();
    let config = Config::built_in(alloc)?;
    let mut bench = Bench::new(alloc, config.chan_shards, config.user_shards)?;
    let wire = wire_of(
        alloc,
        &[],
        OtherSide::Stays,
        Vec::new(alloc),
        vec![in alloc; 1, 2, 3]?,
    )?;
    let mut live = live_of(alloc, &config, wire)?;
    assert_eq!(rt; live.turn(&rt, &mut bench, &config, 0), Turn::Idle);
    assert_eq!(rt; pings_kept(&mut live), 1_023);
    let turn = live.turn(&rt, &mut bench, &config, 0);
    assert_eq!(rt; turn, ended(4100, Farewell::NotSent));
    assert_eq!(rt; live.deliver(Frame::Kill), Delivered::Kept);
    let turn = live.turn(&rt, &mut bench, &config, 0);
    assert_eq!(rt; turn, ended(4009, Farewell::Sent));
    assert_eq!(rt; live.wire.code(), Some(4009));
    Ok(())
}

#[test]
fn a_socket_that_was_refused_is_told_so(rt: HostRuntime) -> Result<(), Fail> {
    let alloc: Global = rt.alloc();
    let config = Config::built_in(alloc)?;
    let mut bench = Bench::new(alloc, config.chan_shards, config.user_shards)?;
    let wire = wire_of(
        alloc,
        &[SUBSCRIBE],
        OtherSide::Stays,
        Vec::new(alloc),
        Vec::new(alloc),
    )?;
    let mut live = Live::refused(alloc, 4001, wire);
    assert_eq!(rt; live.deliver(Frame::Ping), Delivered::Cut);
    let turn = live.turn(&rt, &mut bench, &config, 0);
    assert_eq!(rt; turn, ended(4001, Farewell::Sent));
    assert!(rt; has_sent(&live.wire, &[REFUSED]));
    assert_eq!(rt; live.wire.code(), Some(4001));
    assert!(rt; !live.owes());
    Ok(())
}

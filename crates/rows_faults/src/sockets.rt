//! Live sockets at a desk that is short of memory, and over a wire that is silent.
ghost use Rattle.std.specs.Prelude.{IfOk};
ghost use Rattle.ch_config.specs.Config.{IsConfig};
ghost use Rattle.ch_desk.specs.Bench.{view_of};
ghost use Rattle.ch_desk.specs.Views.{IsDeskOf};
ghost use Rattle.ch_live.specs.Losses.{MayLose};
ghost use Rattle.ch_live.specs.Peers.{IsPeerOver};

use crate::letters::{letters, sign_ins};
use ch_base::Text;
use ch_config::Config;
use ch_desk::{Bench, NumberList, Starved};
use ch_live::{End, Farewell, Live, Turn};
use ch_net::{MemWire, Message, OtherSide, Script};
use ch_session::Session;
use std::alloc::Global;
use std::test::Fail;

const SUBSCRIBE: &str = r#"{"event":"pusher:subscribe","data":{"channel":"a"}}"#;

/// The sign-in of the socket 0.1 as the user `me`. A signature is that of `openssl dgst -sha256 -hmac s`.
const SIGN_IN: &str =
    r#"{"event":"pusher:signin","data":{"auth":"k:de9869bfe0f2c56b6ad7549240e5cbca4be05da096e9505fe41350c7b683e7dd","user_data":"{\"id\":\"me\"}"}}"#;

/// The same of a user who watches another.
const SIGN_IN_AND_WATCH: &str =
    r#"{"event":"pusher:signin","data":{"auth":"k:7cef0bec239532e47e01c514f3ddf13bca3cec00bc0af571f7e521cefb71a931","user_data":"{\"id\":\"me\",\"watchlist\":[\"w\"]}"}}"#;

const OPENED: &str =
    r#"{"event":"pusher:connection_established","data":"{\"socket_id\":\"0.1\",\"activity_timeout\":120}"}"#;

const PING: &str = r#"{"event":"pusher:ping","data":{}}"#;

const NO_PONG: &str =
    r#"{"event":"pusher:error","data":{"message":"pong reply not received","code":4201}}"#;

const NO_MEMORY: &str =
    r#"{"event":"pusher:error","data":{"message":"reconnect immediately","code":4200}}"#;

/// The first socket of the app with the key `k`, opened at the moment 0, over whose wire these texts come.
fn live_of(
    alloc: Global,
    config: &Config,
    texts: &[&str],
    other_side: OtherSide,
) -> Result<Live<MemWire>, Fail>
    requires { IsConfig config.now }
    ensures { IfOk result (λ live. IsPeerOver config.now live.peer) }
{
    let mut messages = Vec::new(alloc);
    for text in texts {
        messages.push(Message::Text(Text::of(alloc, text)?))?;
    }
    let never = Script::new(Vec::new(alloc), Vec::new(alloc));
    let wire = MemWire::new(alloc, messages, other_side, never);
    let Ok(session) = Session::start(alloc, config, 0, 1, "/app/k?protocol=7", 0) else {
        return Err(Fail::from("no session"));
    };
    match Live::new(alloc, session, wire) {
        Ok(live) => Ok(live),
        Err(_) => Err(Fail::from("no room")),
    }
}

/// The end of a connection with this code, of which the socket was told.
fn ended(code: u16) -> Turn {
    Turn::Ended(End::Code {
        code,
        farewell: Farewell::Sent,
    })
}

/// Whether the wire was sent these texts.
fn has_sent(wire: &MemWire, texts: &[&str]) -> bool {
    let sent = wire.sent();
    sent.len() == texts.len()
        && sent
            .iter()
            .zip(texts)
            .all(|(text, wanted)| text.as_str() == *wanted)
}

/// A bench of which the call with this number, counted from 0, finds no memory.
fn starved_bench(alloc: Global, config: &Config, number: u64) -> Result<Starved<Bench>, Fail>
    requires { IsConfig config.now }
    ensures { IfOk result (λ desk. IsDeskOf config.now (view_of desk.desk)) }
{
    let bench = Bench::new(alloc, config.chan_shards, config.user_shards)?;
    Ok(Starved::new(bench, NumberList::new(vec![in alloc; number]?)))
}

/// Takes a turn at the moment 0.
fn turn<R>(rt: &R, live: &mut Live<MemWire>, desk: &mut Starved<Bench>, config: &Config) -> Turn
    requires config { IsConfig config.now }
    requires desk { IsDeskOf config.now (view_of desk.old.desk) }
    requires over { IsPeerOver config.now live.old.peer }
    ensures desk { IsDeskOf config.now (view_of desk.new.desk) }
    ensures over { IsPeerOver config.now live.new.peer }
    ensures may { MayLose live.new.peer (view_of desk.new.desk) }
{
    live.turn(rt, desk, config, 0)
}

/// Makes the losses that the socket owes, and answers whether there was memory for them and whether it still owes some.
fn lose<R>(rt: &R, live: &mut Live<MemWire>, desk: &mut Starved<Bench>) -> (bool, bool)
    requires { MayLose live.old.peer (view_of desk.old.desk) }
    ensures { MayLose live.new.peer (view_of desk.new.desk) }
{
    let made = live.lose(rt, desk, 0).is_ok();
    (made, live.owes())
}

#[test]
fn a_loss_that_found_no_memory_is_made_later(rt: HostRuntime) -> Result<(), Fail> {
    let alloc: Global = rt.alloc();
    let config = Config::built_in(alloc)?;
    // The calls are a Join, a SignIn, a Lost on each of the two shards, and the last one again.
    let mut desk = starved_bench(alloc, &config, 3)?;
    let mut live = live_of(alloc, &config, &[SUBSCRIBE, SIGN_IN], OtherSide::HangsUp)?;
    turn(&rt, &mut live, &mut desk, &config);
    turn(&rt, &mut live, &mut desk, &config);
    let last = turn(&rt, &mut live, &mut desk, &config);
    assert_eq!(rt; last, Turn::Ended(End::Peer));
    assert_eq!(rt; lose(&rt, &mut live, &mut desk), (false, true));
    assert_eq!(rt; sign_ins(&desk.desk), 1);
    assert_eq!(rt; lose(&rt, &mut live, &mut desk), (true, false));
    assert_eq!(rt; sign_ins(&desk.desk), 0);
    assert_eq!(rt; letters(alloc, &desk.desk)?.as_str(), "JX");
    assert_eq!(rt; desk.number, 5);
    Ok(())
}

#[test]
fn a_watch_that_finds_no_memory_ends_its_socket(rt: HostRuntime) -> Result<(), Fail> {
    let alloc: Global = rt.alloc();
    let config = Config::built_in(alloc)?;
    // The calls are a SignIn, a Watch and a Lost.
    let mut desk = starved_bench(alloc, &config, 1)?;
    let mut live = live_of(alloc, &config, &[SIGN_IN_AND_WATCH], OtherSide::Stays)?;
    let last = turn(&rt, &mut live, &mut desk, &config);
    assert_eq!(rt; last, ended(4200));
    assert!(rt; has_sent(&live.wire, &[OPENED, NO_MEMORY]));
    assert_eq!(rt; sign_ins(&desk.desk), 1);
    assert_eq!(rt; lose(&rt, &mut live, &mut desk), (true, false));
    assert_eq!(rt; sign_ins(&desk.desk), 0);
    assert_eq!(rt; desk.number, 3);
    Ok(())
}

#[test]
fn a_silent_wire_ends_its_socket(rt: HostRuntime) -> Result<(), Fail> {
    let alloc: Global = rt.alloc();
    let config = Config::built_in(alloc)?;
    let mut bench = Bench::new(alloc, config.chan_shards, config.user_shards)?;
    let mut live = live_of(alloc, &config, &[], OtherSide::Stays)?;
    assert_eq!(rt; live.turn(&rt, &mut bench, &config, 0), Turn::Moved);
    assert_eq!(rt; live.turn(&rt, &mut bench, &config, 120_000), Turn::Moved);
    assert_eq!(rt; live.turn(&rt, &mut bench, &config, 149_999), Turn::Idle);
    let turn = live.turn(&rt, &mut bench, &config, 150_000);
    assert_eq!(rt; turn, ended(4201));
    assert!(rt; has_sent(&live.wire, &[OPENED, PING, NO_PONG]));
    assert!(rt; !live.owes());
    Ok(())
}

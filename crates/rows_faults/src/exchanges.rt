//! Exchanges over links of which a call fails, and at a desk that is short of memory. The requests are of the app `1` with the
//! key `k` and the secret `s`, signed at the second 1,000; the digest of a body is that of `openssl md5`, and a signature that
//! of `openssl dgst -sha256 -hmac s`.
ghost use Rattle.ch_config.specs.Config.{IsConfig};
ghost use Rattle.ch_desk.specs.Views.{IsDeskOf};
ghost use Rattle.ch_exchange.specs.Turns.{IsUnfinished};

use crate::letters::letters;
use ch_base::Memory;
use ch_config::Config;
use ch_desk::{Bench, Desk, NumberList, Starved};
use ch_exchange::{ExTurn, Exchange};
use ch_net::{MemLink, OtherSide, Script};
use std::alloc::Global;
use std::test::Fail;

/// So many turns are taken at most.
const MOST_TURNS: u64 = 300;

/// An event on the channels `a` and `b`.
const TRIGGER: &str =
    "POST /apps/1/events?auth_key=k&auth_timestamp=1000&auth_version=1.0&body_md5=b55eb3d3959bd127ca957fb15cd39e11&auth_signature=7327682f4bc5f68129ab7f2ce1026a84257cd36b8d45d7ba182b1a5c080bfd34 HTTP/1.1\r\nHost: localhost\r\nContent-Length: 52\r\n\r\n{\"name\":\"e\",\"channels\":[\"a\",\"b\"],\"data\":\"{\\\"x\\\":1}\"}";

/// An event on the channels `0` to `99`.
const TRIGGER_OF_HUNDRED: &str =
    "POST /apps/1/events?auth_key=k&auth_timestamp=1000&auth_version=1.0&body_md5=1fd87110cec839534ace30b6eedefe98&auth_signature=280d97093c2374e29e76312cf045886558fc2609457d33c7d2a29c93abbfa407 HTTP/1.1\r\nHost: localhost\r\nContent-Length: 526\r\n\r\n{\"name\":\"e\",\"channels\":[\"0\",\"1\",\"2\",\"3\",\"4\",\"5\",\"6\",\"7\",\"8\",\"9\",\"10\",\"11\",\"12\",\"13\",\"14\",\"15\",\"16\",\"17\",\"18\",\"19\",\"20\",\"21\",\"22\",\"23\",\"24\",\"25\",\"26\",\"27\",\"28\",\"29\",\"30\",\"31\",\"32\",\"33\",\"34\",\"35\",\"36\",\"37\",\"38\",\"39\",\"40\",\"41\",\"42\",\"43\",\"44\",\"45\",\"46\",\"47\",\"48\",\"49\",\"50\",\"51\",\"52\",\"53\",\"54\",\"55\",\"56\",\"57\",\"58\",\"59\",\"60\",\"61\",\"62\",\"63\",\"64\",\"65\",\"66\",\"67\",\"68\",\"69\",\"70\",\"71\",\"72\",\"73\",\"74\",\"75\",\"76\",\"77\",\"78\",\"79\",\"80\",\"81\",\"82\",\"83\",\"84\",\"85\",\"86\",\"87\",\"88\",\"89\",\"90\",\"91\",\"92\",\"93\",\"94\",\"95\",\"96\",\"97\",\"98\",\"99\"],\"data\":\"x\"}";

const OUT_OF_MEMORY: &str =
    "HTTP/1.1 503 Service Unavailable\r\nContent-Type: application/json\r\nContent-Length: 25\r\nConnection: close\r\n\r\n{\"error\":\"out of memory\"}";

/// A link that gives 5 bytes of the request and then the rest, and whose calls go by this script.
fn link_of(alloc: Global, request: &str, script: Script) -> Result<MemLink, Memory> {
    let bytes = request.as_bytes().to_vec(alloc)?;
    let pieces = vec![in alloc; 5]?;
    Ok(MemLink::new(alloc, bytes, pieces, OtherSide::Stays, script))
}

/// Takes turns at the second 1,000 until the exchange ends, and answers how. It answers `Idle` where it hasn't ended in so many
/// turns.
fn last_turn<R, D: Desk<R>>(
    rt: &R,
    exchange: &mut Exchange<MemLink>,
    desk: &mut D,
    config: &Config,
) -> ExTurn
    requires config { IsConfig config.now }
    requires desk { IsDeskOf config.now (D.view desk.old) }
    requires unfinished { IsUnfinished exchange.old.stage }
{
    for _turn in 0..MOST_TURNS {
        match exchange.turn(rt, desk, config, 0, 1_000_000) {
            ExTurn::Moved => {}
            ExTurn::Idle => {}
            turn => return turn,
        }
    }
    ExTurn::Idle
}

#[test]
fn a_call_of_a_link_that_fails_is_told(rt: HostRuntime) -> Result<(), Fail> {
    let alloc: Global = rt.alloc();
    let config = Config::built_in(alloc)?;
    // The first two calls read, and the third one writes the reply to what was published on both channels.
    let rows = [(1, ""), (2, ""), (3, "PP")];
    for (call, calls) in rows {
        let mut bench = Bench::new(alloc, config.chan_shards, config.user_shards)?;
        let script = Script::new(vec![in alloc; call]?, Vec::new(alloc));
        let mut exchange = Exchange::new(alloc, link_of(alloc, TRIGGER, script)?, 1_000_000);
        let turn = last_turn(&rt, &mut exchange, &mut bench, &config);
        assert_eq!(rt; turn, ExTurn::Fault);
        assert_eq!(rt; letters(alloc, &bench)?.as_str(), calls);
        assert!(rt; exchange.link.written().is_empty());
    }
    Ok(())
}

#[test]
fn a_trigger_that_finds_no_memory_is_told_so(rt: HostRuntime) -> Result<(), Fail> {
    let alloc: Global = rt.alloc();
    let config = Config::built_in(alloc)?;
    let bench = Bench::new(alloc, config.chan_shards, config.user_shards)?;
    let mut desk = Starved::new(bench, NumberList::new(vec![in alloc; 2]?));
    let never = Script::new(Vec::new(alloc), Vec::new(alloc));
    let link = link_of(alloc, TRIGGER_OF_HUNDRED, never)?;
    let mut exchange = Exchange::new(alloc, link, 1_000_000);
    let turn = last_turn(&rt, &mut exchange, &mut desk, &config);
    assert_eq!(rt; turn, ExTurn::Done);
    assert_eq!(rt; exchange.link.written(), OUT_OF_MEMORY.as_bytes());
    assert_eq!(rt; desk.number, 3);
    assert_eq!(rt; letters(alloc, &desk.desk)?.as_str(), "PP");
    Ok(())
}

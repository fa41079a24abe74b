//! A server of two workers with one connection, in real threads.
ghost use Rattle.std.specs.Prelude.{◌≡◌, length, IfOk};

use crate::noted::{FlaggedAccept, NotedLink, NotedPost, Notes, has_noted};
use crate::stage::{Owner, Stage, StagedClock};
use ch_base::Memory;
use ch_config::Config;
use ch_edge::{Accept, MemAccept, MemPark, Park};
use ch_house::ShardCount;
use ch_io::{MemClock, MemPost, Post};
use ch_net::{Link, MemLink, OtherSide, Script};
use ch_serve::serve;
use std::alloc::Global;
use std::sync::{Mutex, Wait};
use std::test::Fail;
use std::thread::Threads;

/// The handshake of RFC 6455, section 1.3, and then a line that subscribes to the channel `a`.
const SUBSCRIBER: &str =
    "GET /app/k?protocol=7 HTTP/1.1\r\nHost: localhost\r\nConnection: Upgrade\r\nUpgrade: websocket\r\nSec-WebSocket-Version: 13\r\nSec-WebSocket-Key: dGhlIHNhbXBsZSBub25jZQ==\r\n\r\n{\"event\":\"pusher:subscribe\",\"data\":{\"channel\":\"a\"}}\n";

const OPENED: &str =
    r#"{"event":"pusher:connection_established","data":"{\"socket_id\":\"0.1\",\"activity_timeout\":120}"}"#;

const SUBSCRIBED: &str =
    r#"{"event":"pusher_internal:subscription_succeeded","channel":"a","data":"{}"}"#;

const WEBHOOK: &str = r#"{"time_ms":0,"events":[{"name":"channel_occupied","channel":"a"}]}"#;

/// How a run ended: its status, the counts of the channel shard and of the user shard, each worker's turns, and how many
/// connections the workers took together.
#[derive(Debug, PartialEq, Eq, Drop)]
struct Outcome {
    status: u8,
    chan: ShardCount,
    user: ShardCount,
    turns: Vec<u64>,
    taken: u64,
}

/// One connection, which subscribes and then stays.
fn accept_of<'a>(
    alloc: Global,
    notes: &'a Notes,
    stage: &'a Stage,
) -> Result<FlaggedAccept<'a>, Memory> {
    let never = Script::new(Vec::new(alloc), Vec::new(alloc));
    let bytes = SUBSCRIBER.as_bytes().to_vec(alloc)?;
    let link = MemLink::new(alloc, bytes, Vec::new(alloc), OtherSide::Stays, never);
    let link = NotedLink { alloc, link, notes };
    Ok(FlaggedAccept {
        accept: MemAccept::new(vec![in alloc; link]?, Vec::new(alloc), Vec::new(alloc)),
        calls: 0,
        flag: &stage.handed_on,
    })
}

/// A clock that stands at 0.
fn clock_of(alloc: Global, stage: &Stage, owner: Owner) -> StagedClock<'_> {
    StagedClock {
        clock: MemPark::new(MemClock::new(Vec::new(alloc))),
        stage,
        owner,
        calls: 0,
    }
}

/// Eight turns of each thread with these, and what came of them; None where the status isn't 0.
fn outcome_of<R, A, C, P>(
    rt: &R,
    alloc: Global,
    accept: A,
    clocks: Vec<C>,
    post: P,
) -> Result<Option<Outcome>, Memory>
where
    R: Wait + Threads + Sync,
    A: Accept + Send + Drop,
    A::Conn: Send,
    <A::Conn as Link>::Wire: Send,
    C: Park<A::Conn> + Send + Drop,
    C::Waker: Send + Sync,
    P: Post + Drop,
    requires { length clocks.items ≡ 3 }
{
    let config = Config::built_in(alloc)?;
    let ran = serve(rt, alloc, &config, accept, clocks, Some(post), 8);
    if ran.status != 0 {
        return Ok(None);
    }
    let Some(closed) = &ran.closed else {
        return Ok(None);
    };
    let mut turns = Vec::new(alloc);
    let mut taken: u64 = 0;
    for worker in ran.workers.as_slice() {
        turns.push(worker.turns())?;
        taken = taken.saturating_add(worker.taken());
    }
    Ok(Some(Outcome {
        status: ran.status,
        chan: closed.chan(0),
        user: closed.user(0),
        turns,
        taken,
    }))
}

/// The clocks of two workers and of the webhook thread.
fn clocks_of(alloc: Global, stage: &Stage) -> Result<Vec<StagedClock<'_>>, Memory>
    ensures { IfOk result (λ clocks. length clocks.items ≡ 3) }
{
    let mut clocks = Vec::new(alloc);
    clocks.push(clock_of(alloc, stage, Owner::FirstWorker))?;
    clocks.push(clock_of(alloc, stage, Owner::SecondWorker))?;
    clocks.push(clock_of(alloc, stage, Owner::Webhooks))?;
    Ok(clocks)
}

/// What comes of one connection, of clocks that wait for one another, and of a receiver that answers 200.
fn serve_one<'a, R: Wait + Threads + Sync>(
    rt: &R,
    alloc: Global,
    notes: (&'a Notes, &'a Notes),
    stage: &'a Stage,
) -> Result<Option<Outcome>, Memory> {
    let clocks = clocks_of(alloc, stage)?;
    let post = NotedPost {
        alloc,
        post: MemPost::new(alloc, vec![in alloc; 200]?, Vec::new(alloc)),
        notes: notes.1,
    };
    let accept = accept_of(alloc, notes.0, stage)?;
    outcome_of(rt, alloc, accept, clocks, post)
}

#[test]
fn workers_and_webhooks_share_a_house(rt: HostRuntime) -> Result<(), Fail> {
    let alloc = rt.alloc();
    let frames: Notes = Mutex::new(Vec::new(alloc));
    let bodies: Notes = Mutex::new(Vec::new(alloc));
    let stage = Stage::new();
    let outcome = serve_one(&rt, alloc, (&frames, &bodies), &stage)?;
    assert!(rt; !stage.is_late());
    assert_eq!(rt;
        outcome,
        Some(Outcome {
            status: 0,
            chan: ShardCount {
                entries: 25,
                left: 1
            },
            user: ShardCount {
                entries: 16,
                left: 0
            },
            turns: vec![in alloc; 8, 8]?,
            taken: 1,
        })
    );
    assert!(rt; has_noted(&frames, &[OPENED, SUBSCRIBED]));
    assert!(rt; has_noted(&bodies, &[WEBHOOK]));
    Ok(())
}

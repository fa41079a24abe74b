ghost use Rattle.std.specs.Prelude.{◌<◌};

use ch_base::{ChanCall, Hook, HookList, Memory, Text};
use ch_batch::{Batcher, Step};
use ch_desk::Bench;
use ch_io::MemPost;
use std::alloc::Global;
use std::test::Fail;

/// The body of a batch that was cut at 1,000, of the one event that `a` is occupied.
const BODY: &str = r#"{"time_ms":1000,"events":[{"name":"channel_occupied","channel":"a"}]}"#;

/// The HMAC-SHA256 of that body by the secret `s`: `openssl dgst -sha256 -hmac s`.
const SIGNATURE: &str = "9d689ec866f881213d1b0959f0ec1a354d750aad7e41982a2ae5c453caaa1f76";

/// The same of the body with that event 50 times.
const SIGNATURE_OF_FIFTY: &str = "67a7161b3d6eb8b8d38b7f69520575dfd201c39edeea0941478ea23db2f55218";

/// So many events that `a` is occupied.
fn occupied(alloc: Global, count: u64) -> Result<HookList, Memory> {
    let mut events = HookList::new(alloc);
    for _i in 0..count {
        events.push(Hook::Occupied {
            channel: Text::of(alloc, "a")?,
        })?;
    }
    Ok(events)
}

/// A batcher of the app with the key `k` and the secret `s`, with two batches of 51 events that were cut at 1,000.
fn two_batches(alloc: Global) -> Result<Batcher, Fail> {
    let mut batcher = Batcher::new(alloc, &Text::of(alloc, "k")?, &Text::of(alloc, "s")?, 1)?;
    batcher.reserve(1)?;
    batcher.accept(occupied(alloc, 51)?);
    if batcher.cut(1_000)? != 2 {
        return Err(Fail::from("two batches were to be made"));
    }
    Ok(batcher)
}

/// Makes a step at each moment, and compares its answer.
fn makes_steps(batcher: &mut Batcher, post: &mut MemPost, steps: &[(u64, Step)]) -> bool {
    for (now, wanted) in steps {
        if *now > 1_000_000 || batcher.step(post, *now) != *wanted {
            return false;
        }
    }
    true
}

/// The batch `number`, tried again from `due` on.
fn retry(number: u64, tries: u64, due: u64) -> Step {
    Step::Retry { number, tries, due }
}

#[test]
fn a_batch_is_posted_until_it_is_received(rt: HostRuntime) -> Result<(), Fail> {
    let alloc: Global = rt.alloc();
    let mut batcher = two_batches(alloc)?;
    let mut post = MemPost::new(alloc, vec![in alloc; 500, 200, 200]?, vec![in alloc; 2]?);
    let steps = [
        (1_000, retry(1, 1, 2_000)),
        (1_999, Step::Later(2_000)),
        (2_000, retry(1, 2, 4_000)),
        (4_000, Step::Sent(1)),
        (4_000, Step::Sent(2)),
        (4_000, Step::Nothing),
    ];
    assert!(rt; makes_steps(&mut batcher, &mut post, &steps));
    assert!(rt;
        signatures_are(
            &post,
            &[
                SIGNATURE_OF_FIFTY,
                SIGNATURE_OF_FIFTY,
                SIGNATURE_OF_FIFTY,
                SIGNATURE
            ]
        )
    );
    let Some(last) = post.handed().last() else {
        return Err(Fail::from("a batch was to be posted"));
    };
    assert!(rt; last.body.as_slice() == BODY.as_bytes());
    assert!(rt; last.key.as_str() == "k");
    Ok(())
}

/// Whether the posts were handed these signatures, one after another.
fn signatures_are(post: &MemPost, wanted: &[&str]) -> bool {
    let handed = post.handed();
    handed.len() == wanted.len()
        && handed.iter().zip(wanted).all(|(item, signature)| item.signature.as_slice()
            == signature.as_bytes())
}

#[test]
fn a_batch_is_given_up_after_eight_tries(rt: HostRuntime) -> Result<(), Fail> {
    let alloc: Global = rt.alloc();
    let mut batcher = two_batches(alloc)?;
    let mut post = MemPost::new(alloc, Vec::new(alloc), Vec::new(alloc));
    let steps = [
        (0, retry(1, 1, 1_000)),
        (1_000, retry(1, 2, 3_000)),
        (3_000, retry(1, 3, 7_000)),
        (7_000, retry(1, 4, 15_000)),
        (15_000, retry(1, 5, 31_000)),
        (31_000, retry(1, 6, 63_000)),
        (63_000, retry(1, 7, 127_000)),
        (126_999, Step::Later(127_000)),
        (127_000, Step::GaveUp(1)),
        (127_000, retry(2, 1, 128_000)),
    ];
    assert!(rt; makes_steps(&mut batcher, &mut post, &steps));
    assert_eq!(rt; batcher.waiting(), 1);
    Ok(())
}

/// A bench on whose one channel shard socket 1 has joined `a`.
fn bench_of(alloc: Global) -> Result<Bench, Fail> {
    let mut bench = Bench::new(alloc, 1, 1)?;
    let join = ChanCall::Join {
        socket: 1,
        channel: Text::of(alloc, "a")?,
        member: None,
        at: 0,
    };
    bench.chan(0, &join)?;
    Ok(bench)
}

#[test]
fn events_are_gathered_from_a_desk(rt: HostRuntime) -> Result<(), Fail> {
    let alloc: Global = rt.alloc();
    let mut bench = bench_of(alloc)?;
    let mut batcher = Batcher::new(alloc, &Text::of(alloc, "k")?, &Text::of(alloc, "s")?, 1)?;
    assert_eq!(rt; batcher.gather(&rt, &mut bench, 1_000), Ok(1));
    assert_eq!(rt; batcher.gather(&rt, &mut bench, 1_001), Ok(0));
    if batcher.waiting() == 0 {
        return Err(Fail::from("a batch was to wait"));
    }
    let batch = batcher.batch(0);
    assert_eq!(rt; batch.number, 1);
    assert!(rt; batch.body.as_slice() == BODY.as_bytes());
    assert!(rt; batch.signature.as_slice() == SIGNATURE.as_bytes());
    Ok(())
}

use ch_base::{Memory, Text};
use ch_drill::drill;
use ch_io::MemSink;
use ch_net::MemLink;
use ch_pool::Ran;
use std::alloc::Global;
use std::sync::Wait;
use std::test::Fail;
use std::thread::Threads;

/// What the drill of two workers and one round prints: each took 5 turns, and `drill-0` has its place on shard 1.
const TWO: &str = "chan 0 10 0\nchan 1 16 0\nuser 0 10 0\nuser 1 10 0\ntotal 46\n";

/// What the drill of three workers and nine rounds prints: 21 turns each, four rounds on shard 0 and five on shard 1.
const THREE: &str = "chan 0 90 0\nchan 1 96 0\nuser 0 63 0\nuser 1 63 0\ntotal 312\n";

const USAGE: &str = "usage: channelsd drill <workers> <rounds>\n";

/// Runs the drill of the words of a line.
fn drill_line<R: Threads + Wait + Sync>(
    rt: &R,
    alloc: Global,
    line: &str,
    sink: &mut MemSink,
) -> Result<Ran<MemLink>, Memory> {
    let mut words = Vec::new(alloc);
    for word in line.split(' ') {
        words.push(Text::of(alloc, word)?)?;
    }
    Ok(drill(rt, alloc, words.as_slice(), sink))
}

#[test]
fn a_drill_prints_what_its_words_ask_for(rt: HostRuntime) -> Result<(), Fail> {
    let alloc: Global = rt.alloc();
    for (line, status, text) in [
        ("drill 2 1", 0, TWO),
        ("drill 3 9", 0, THREE),
        ("drill 2", 2, USAGE),
        ("drill 0 1", 2, USAGE),
        ("drill 17 1", 2, USAGE),
        ("drill 1 1001", 2, USAGE),
        ("drill 2 01", 2, USAGE),
        ("drill 2 1 1", 2, USAGE),
        ("drills 2 1", 2, USAGE),
    ] {
        let mut sink = MemSink::new(alloc, Vec::new(alloc), Vec::new(alloc));
        let ran = drill_line(&rt, alloc, line, &mut sink)?;
        assert_eq!(rt; ran.status, status, "{line}");
        assert_eq!(rt; sink.as_slice(), text.as_bytes(), "{line}");
    }
    Ok(())
}

#[test]
fn a_sink_that_fails_holds_a_front(rt: HostRuntime) -> Result<(), Fail> {
    let alloc: Global = rt.alloc();
    for (line, status, text) in [("drill 2 1", 6, "chan 0 10"), ("drill 2", 2, "usage: ch")] {
        let mut sink = MemSink::new(alloc, vec![in alloc; 9]?, vec![in alloc; 2]?);
        let ran = drill_line(&rt, alloc, line, &mut sink)?;
        assert_eq!(rt; ran.status, status, "{line}");
        assert_eq!(rt; sink.as_slice(), text.as_bytes(), "{line}");
        assert!(rt; ran.closed.is_none() && ran.workers.is_empty());
    }
    Ok(())
}

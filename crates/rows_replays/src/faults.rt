use ch_base::Text;
use ch_io::{MemSink, MemSource};
use ch_replay::replay;
use std::alloc::{AllocError, Global};
use std::str::from_utf8;
use std::test::Fail;

/// The text of the built-in configuration.
const BUILT_IN: &str = r#"{"app_id":"1","key":"k","secret":"s"}"#;

/// The lines of a transcript of one user with two sockets on a presence channel, and what each of them writes.
const LINES: [(&str, &str); 7] = [
    (
        "0 open /app/k?protocol=7\n",
        r#"1 {"event":"pusher:connection_established","data":"{\"socket_id\":\"1.1\",\"activity_timeout\":120}"}
"#,
    ),
    (
        "0 open /app/k?protocol=7\n",
        r#"2 {"event":"pusher:connection_established","data":"{\"socket_id\":\"1.2\",\"activity_timeout\":120}"}
"#,
    ),
    (
        "0 open /app/k?protocol=7\n",
        r#"3 {"event":"pusher:connection_established","data":"{\"socket_id\":\"1.3\",\"activity_timeout\":120}"}
"#,
    ),
    (
        "1 join 1 presence-r {\"user_id\":\"u\",\"user_info\":1}\n",
        r#"1 {"event":"pusher_internal:subscription_succeeded","channel":"presence-r","data":"{\"presence\":{\"ids\":[\"u\"],\"hash\":{\"u\":1},\"count\":1}}"}
"#,
    ),
    (
        "1 join 2 presence-r {\"user_id\":\"u\",\"user_info\":2}\n",
        r#"2 {"event":"pusher_internal:subscription_succeeded","channel":"presence-r","data":"{\"presence\":{\"ids\":[\"u\"],\"hash\":{\"u\":1},\"count\":1}}"}
"#,
    ),
    (
        "1 say 1 {\"event\":\"pusher:unsubscribe\",\"data\":{\"channel\":\"presence-r\"}}\n",
        "",
    ),
    (
        "1 join 3 presence-r {\"user_id\":\"v\"}\n",
        r#"3 {"event":"pusher_internal:subscription_succeeded","channel":"presence-r","data":"{\"presence\":{\"ids\":[\"u\",\"v\"],\"hash\":{\"u\":2,\"v\":null},\"count\":2}}"}
2 {"event":"pusher_internal:member_added","channel":"presence-r","data":"{\"user_id\":\"v\",\"user_info\":null}"}
"#,
    ),
];

/// The whole transcript.
fn transcript(alloc: Global) -> Result<String, AllocError> {
    let mut text = String::new(alloc);
    for (line, _) in LINES {
        text.push_str(line)?;
    }
    Ok(text)
}

/// What the lines write whose line feed is among the first bytes of the transcript.
fn written_after(alloc: Global, bytes: usize) -> Result<String, AllocError> {
    let mut text = String::new(alloc);
    let mut end = 0_usize;
    for (line, output) in LINES {
        end = end.saturating_add(line.len());
        if end <= bytes {
            text.push_str(output)?;
        }
    }
    Ok(text)
}

/// So many pieces of one size.
fn pieces(alloc: Global, size: usize) -> Result<Vec<usize>, AllocError> {
    let mut pieces = Vec::new(alloc);
    for _piece in 0..100_u64 {
        pieces.push(size)?;
    }
    Ok(pieces)
}

/// The status of a replay of the transcript, and what it writes. Its source gives 7 bytes at a read, and its sink takes 64 at a
/// write. They fail at the call with this number, counted from 1, or never, at 0.
fn replayed(alloc: Global, read: usize, write: usize) -> Result<(u8, String), Fail> {
    let words = vec![in alloc; Text::of(alloc, "replay")?]?;
    let bytes = transcript(alloc)?.as_bytes().to_vec(alloc)?;
    let mut source = MemSource::new(bytes, pieces(alloc, 7)?, vec![in alloc; read]?);
    let mut sink = MemSink::new(alloc, pieces(alloc, 64)?, vec![in alloc; write]?);
    let config = Some(BUILT_IN.as_bytes());
    let status = replay(alloc, words.as_slice(), config, &mut source, &mut sink);
    Ok((
        status,
        String::from_str(alloc, from_utf8(sink.as_slice())?)?,
    ))
}

#[test]
fn a_read_that_fails_leaves_the_lines_that_were_read(rt: HostRuntime) -> Result<(), Fail> {
    let alloc: Global = rt.alloc();
    let (status, whole) = replayed(alloc, 0, 0)?;
    assert_eq!(rt; status, 0);
    assert_eq!(rt; whole, written_after(alloc, 1_000)?);
    // The transcript has 282 bytes: 41 reads, and one that finds its end.
    for before in 0..42_usize {
        let (status, text) = replayed(alloc, before + 1, 0)?;
        assert_eq!(rt; status, 5, "after {before} reads");
        assert_eq!(rt;
            text,
            written_after(alloc, before * 7)?,
            "after {before} reads"
        );
    }
    Ok(())
}

#[test]
fn a_write_that_fails_leaves_a_front(rt: HostRuntime) -> Result<(), Fail> {
    let alloc: Global = rt.alloc();
    let whole = written_after(alloc, 1_000)?;
    // The output has more than 13 times 64 bytes.
    for write in 1..15_usize {
        let (status, text) = replayed(alloc, 0, write)?;
        assert_eq!(rt; status, 6, "at write {write}");
        assert!(rt;
            whole.as_str().starts_with(text.as_str()),
            "at write {write}"
        );
        assert!(rt; text.len() < whole.len(), "at write {write}");
    }
    Ok(())
}

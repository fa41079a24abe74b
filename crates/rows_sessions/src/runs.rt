//! Runs of `replay` with their words, configurations and faults.
use ch_base::Text;
use ch_io::{MemSink, MemSource};
use ch_replay::replay;
use std::alloc::Global;
use std::str::from_utf8;
use std::test::Fail;

/// The text of the built-in configuration.
pub const BUILT_IN: &str =
    r#"{"app_id":"1","key":"k","secret":"s","chan_shards":1,"user_shards":1}"#;

/// What a replay is given. A source or sink fails at the call with this number, counted from 1, or never, at 0.
#[derive(Drop)]
pub struct Run<'a> {
    pub words: &'a [&'a str],
    pub config: Option<&'a str>,
    pub input: &'a str,
    pub failing_read: usize,
    pub failing_write: usize,
}

impl<'a> Run<'a> {
    /// A replay over a source and a sink that never fail.
    pub fn of(config: &'a str, input: &'a str) -> Run<'a> {
        Run {
            words: &["replay"],
            config: Some(config),
            input,
            failing_read: 0,
            failing_write: 0,
        }
    }
}

fn texts(alloc: Global, words: &[&str]) -> Result<Vec<Text>, Fail> {
    let mut texts = Vec::new(alloc);
    for word in words {
        texts.push(Text::of(alloc, word)?)?;
    }
    Ok(texts)
}

/// A source that gives 30 bytes at each of its first two reads.
fn source(alloc: Global, text: &str, failing: usize) -> Result<MemSource, Fail> {
    let bytes = text.as_bytes().to_vec(alloc)?;
    Ok(MemSource::new(bytes, vec![in alloc; 30, 30]?, vec![in alloc; failing]?))
}

/// A sink that takes 50 and 52 bytes in turn at its first four writes.
fn sink(alloc: Global, failing: usize) -> Result<MemSink, Fail> {
    let pieces = vec![in alloc; 50, 52, 50, 52]?;
    Ok(MemSink::new(alloc, pieces, vec![in alloc; failing]?))
}

/// The status of a run, and what it writes.
pub fn replayed(alloc: Global, run: &Run) -> Result<(u8, Text), Fail> {
    let words = texts(alloc, run.words)?;
    let config = run.config.map(str::as_bytes);
    let mut source = source(alloc, run.input, run.failing_read)?;
    let mut sink = sink(alloc, run.failing_write)?;
    let status = replay(alloc, words.as_slice(), config, &mut source, &mut sink);
    Ok((status, Text::of(alloc, from_utf8(sink.as_slice())?)?))
}

const TWO_OPEN: &str = "0 open /app/k?protocol=7\n\n# x\n0 open /app/k?protocol=7\n";

const FIRST: &str =
    "1 {\"event\":\"pusher:connection_established\",\"data\":\"{\\\"socket_id\\\":\\\"1.1\\\",\\\"activity_timeout\\\":120}\"}\n";

const FIRST_THEN_ERROR: &str =
    "1 {\"event\":\"pusher:connection_established\",\"data\":\"{\\\"socket_id\\\":\\\"1.1\\\",\\\"activity_timeout\\\":120}\"}\nerror line 2\n";

const BOTH: &str =
    "1 {\"event\":\"pusher:connection_established\",\"data\":\"{\\\"socket_id\\\":\\\"1.1\\\",\\\"activity_timeout\\\":120}\"}\n2 {\"event\":\"pusher:connection_established\",\"data\":\"{\\\"socket_id\\\":\\\"1.2\\\",\\\"activity_timeout\\\":120}\"}\n";

/// The first 50 bytes of these.
const HALF: &str = "1 {\"event\":\"pusher:connection_established\",\"data\":";

/// The first 152 bytes.
const FIRST_AND_HALF: &str =
    "1 {\"event\":\"pusher:connection_established\",\"data\":\"{\\\"socket_id\\\":\\\"1.1\\\",\\\"activity_timeout\\\":120}\"}\n2 {\"event\":\"pusher:connection_established\",\"data\":";

#[test]
fn lines_are_judged_one_after_another(rt: HostRuntime) -> Result<(), Fail> {
    let alloc: Global = rt.alloc();
    let rows = [
        ("", 0, ""),
        (TWO_OPEN, 0, BOTH),
        (
            "0 open /app/k?protocol=7\n\n# x\n0 open /app/k?protocol=7",
            0,
            BOTH,
        ),
        ("0 open /app/k?protocol=7\nxyz\n", 4, FIRST_THEN_ERROR),
        (
            "0 open /app/k?protocol=7\n-1 open /app/k?protocol=7\n",
            4,
            FIRST_THEN_ERROR,
        ),
        (
            "1000000000000001 open /app/k?protocol=7\n",
            4,
            "error line 1\n",
        ),
        ("0 open /app/k?protocol=7 \n", 4, "error line 1\n"),
        ("0 publish a e \"hi\"\n", 0, "sent 0 0\n"),
        ("0 publish presence-a e \"hi\"\n", 0, "sent 0 0\n"),
        ("0 publish a e \"h\"i\"\n", 4, "error line 1\n"),
        (
            "0 say 1 {\"event\":\"pusher:subscribe\",\"data\":{\"channel\":\"a\"}}\n",
            4,
            "error line 1\n",
        ),
    ];
    for (input, status, output) in rows {
        let run = Run::of(BUILT_IN, input);
        assert_eq!(rt; replayed(alloc, &run)?, (status, Text::of(alloc, output)?));
    }
    Ok(())
}

#[test]
fn a_line_says_why_there_is_no_configuration(rt: HostRuntime) -> Result<(), Fail> {
    let alloc: Global = rt.alloc();
    let rows = [
        (None, "config unread\n"),
        (Some("[]"), "config not json\n"),
        (Some(""), "config not json\n"),
        (Some("{}"), "config missing app_id\n"),
        (
            Some(r#"{"app_id":"1","key":"k","secret":""}"#),
            "config bad secret\n",
        ),
        (
            Some(r#"{"app_id":"1","key":"k","secret":"s","workers":64}"#),
            "config bad workers\n",
        ),
    ];
    for (config, line) in rows {
        let run = Run {
            words: &["replay", "config.json"],
            config,
            input: TWO_OPEN,
            failing_read: 0,
            failing_write: 0,
        };
        assert_eq!(rt; replayed(alloc, &run)?, (3, Text::of(alloc, line)?));
    }
    Ok(())
}

#[test]
fn a_failed_read_or_write_is_told(rt: HostRuntime) -> Result<(), Fail> {
    let alloc: Global = rt.alloc();
    // the first read gives the first three lines whole, and each line of output is 102 bytes long
    let rows = [
        (Some(BUILT_IN), 1, 0, 5, ""),
        (Some(BUILT_IN), 2, 0, 5, FIRST),
        (Some(BUILT_IN), 3, 0, 5, BOTH),
        (Some(BUILT_IN), 0, 1, 6, ""),
        (Some(BUILT_IN), 0, 2, 6, HALF),
        (Some(BUILT_IN), 0, 3, 6, FIRST),
        (Some(BUILT_IN), 0, 4, 6, FIRST_AND_HALF),
        (None, 0, 1, 3, ""),
    ];
    for (config, failing_read, failing_write, status, output) in rows {
        let run = Run {
            words: &["replay"],
            config,
            input: TWO_OPEN,
            failing_read,
            failing_write,
        };
        assert_eq!(rt; replayed(alloc, &run)?, (status, Text::of(alloc, output)?));
    }
    Ok(())
}

#[test]
fn a_line_has_its_greatest_length(rt: HostRuntime) -> Result<(), Fail> {
    let alloc: Global = rt.alloc();
    for (length, status, output) in [(1_048_576, 0, ""), (1_048_577, 8, "long line 1\n")] {
        let mut input = "#".repeat(alloc, length)?;
        input.push('\n')?;
        let run = Run::of(BUILT_IN, input.as_str());
        assert_eq!(rt; replayed(alloc, &run)?, (status, Text::of(alloc, output)?));
    }
    Ok(())
}

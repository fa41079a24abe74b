//! Soaks with their words and faults. The lines were computed by a model of the server in another language, from the tables
//! of the protocol, and the first one by hand: eight frames that open a connection, of 102 bytes each.
use ch_base::Text;
use ch_io::MemSink;
use ch_soak::{Soak, soak, soak_of};
use std::alloc::Global;
use std::str::from_utf8;
use std::test::Fail;

const USAGE: &str = "usage: channelsd soak <seed> <lines>\n";

const EIGHT: &str =
    "soak 5 lines 8 bytes 816 sha256 15382970e6992cdc2abc800c387baee7ff4d06e9e805f296b92940421b0a7a31\n";

const THIRTY: &str =
    "soak 5 lines 30 bytes 2998 sha256 914e4c59a17037b31e289486ceea4fae737790f5a10463dc91347b2bc4439bad\n";

const SIXTY: &str =
    "soak 18446744073709551615 lines 60 bytes 5678 sha256 449e74c27325af1990f43d0b18532eae433a13a0f08cbfec1691ffc1985c748b\n";

const TWO_THOUSAND: &str =
    "soak 7 lines 2000 bytes 275239 sha256 bdb2d9f0721a41dc27d2740c04385f4450c6841e3dc1257b968c5050c458e5f1\n";

/// The first 50 bytes of these.
const FIRST_FIFTY: &str = "soak 5 lines 8 bytes 816 sha256 15382970e6992cdc2a";

fn texts(alloc: Global, words: &str) -> Result<Vec<Text>, Fail> {
    let mut texts = Vec::new(alloc);
    for word in words.split(' ') {
        texts.push(Text::of(alloc, word)?)?;
    }
    Ok(texts)
}

/// The status of a soak with these words, and what it writes to a sink that takes 50 bytes at its first write and fails at
/// the write with this number, or never, at 0.
fn soaked(alloc: Global, words: &str, failing: usize) -> Result<(u8, Text), Fail> {
    let words = texts(alloc, words)?;
    let mut sink = MemSink::new(alloc, vec![in alloc; 50]?, vec![in alloc; failing]?);
    let status = soak(alloc, words.as_slice(), &mut sink);
    Ok((status, Text::of(alloc, from_utf8(sink.as_slice())?)?))
}

#[test]
fn a_soak_sums_up_its_output(rt: HostRuntime) -> Result<(), Fail> {
    let alloc: Global = rt.alloc();
    let rows = [
        ("soak 5 8", 0, 0, EIGHT),
        ("soak 5 30", 0, 0, THIRTY),
        ("soak 18446744073709551615 60", 0, 0, SIXTY),
        ("soak 7 2000", 0, 0, TWO_THOUSAND),
        ("soak 5 8", 1, 6, ""),
        ("soak 5 8", 2, 6, FIRST_FIFTY),
        ("soak 5 7", 0, 2, USAGE),
        ("soak 5 7", 1, 2, ""),
        ("", 0, 2, USAGE),
    ];
    for (words, failing, status, output) in rows {
        assert_eq!(rt;
            soaked(alloc, words, failing)?,
            (status, Text::of(alloc, output)?)
        );
    }
    Ok(())
}

#[test]
fn words_ask_for_a_soak(rt: HostRuntime) -> Result<(), Fail> {
    let alloc: Global = rt.alloc();
    let rows = [
        ("soak 0 8", Some((0, 8))),
        ("soak 18446744073709551615 20000", Some((u64::MAX, 20_000))),
        ("soak", None),
        ("soak 5", None),
        ("soak 5 8 9", None),
        ("soap 5 8", None),
        ("soak 5 7", None),
        ("soak 5 20001", None),
        ("soak 18446744073709551616 8", None),
        ("soak 05 8", None),
        ("soak 5 08", None),
        ("soak +5 8", None),
        ("soak -5 8", None),
        ("soak  8", None),
        ("soak 5 8.0", None),
    ];
    for (words, wanted) in rows {
        let wanted = wanted.map(|(seed, lines)| Soak { seed, lines });
        assert_eq!(rt; soak_of(alloc, texts(alloc, words)?.as_slice()), Ok(wanted));
    }
    Ok(())
}

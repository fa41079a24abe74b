use crate::exchanges::exchanged;
use crate::links::{link_of, never, quiet_link};
use ch_exchange::ExTurn;
use ch_net::{OtherSide, Script};
use std::alloc::{AllocError, Global};
use std::test::Fail;

const TRIGGER: &str =
    "POST /apps/1/events?auth_key=k&auth_timestamp=1000&auth_version=1.0&body_md5=b55eb3d3959bd127ca957fb15cd39e11&auth_signature=7327682f4bc5f68129ab7f2ce1026a84257cd36b8d45d7ba182b1a5c080bfd34 HTTP/1.1\r\nHost: localhost\r\nContent-Length: 52\r\n\r\n{\"name\":\"e\",\"channels\":[\"a\",\"b\"],\"data\":\"{\\\"x\\\":1}\"}";

const TRIGGERED: &str =
    "HTTP/1.1 200 OK\r\nContent-Type: application/json\r\nContent-Length: 2\r\nConnection: close\r\n\r\n{}";

/// The head of a request whose body has 1,048,576 bytes: an event, and then blanks.
const LONG_HEAD: &str =
    "POST /apps/1/events?auth_key=k&auth_timestamp=1000&auth_version=1.0&body_md5=c672776befa6a2584d8bc49a0c5403c9&auth_signature=0b16531d35d511af51c087836d4574dce003c7383afda79bdf7efb7a5ed5123e HTTP/1.1\r\nHost: localhost\r\nContent-Length: 1048576\r\n\r\n";

const EVENT: &str = "{\"name\":\"e\",\"channel\":\"a\",\"data\":\"x\"}";

/// So many blanks stand behind the event, which has 37 bytes.
const BLANKS: u64 = 1_048_539;

const TOO_LATE: &str =
    "HTTP/1.1 408 Request Timeout\r\nContent-Type: application/json\r\nContent-Length: 27\r\nConnection: close\r\n\r\n{\"error\":\"request timeout\"}";

#[test]
fn a_request_that_is_cut_has_the_same_reply(rt: HostRuntime) -> Result<(), Fail> {
    let alloc: Global = rt.alloc();
    for cut in 1..TRIGGER.len() {
        let pieces = vec![in alloc; cut]?;
        let link = link_of(alloc, TRIGGER, pieces, OtherSide::Stays, never(alloc))?;
        let (turn, written) = exchanged(&rt, alloc, link, 1_000_000)?;
        assert_eq!(rt; turn, ExTurn::Done);
        assert_eq!(rt; written.as_slice(), TRIGGERED.as_bytes());
    }
    Ok(())
}

/// So many ones.
fn ones(alloc: Global, count: usize) -> Result<Vec<usize>, AllocError> {
    let mut ones = Vec::new(alloc);
    for _one in 0..count {
        ones.push(1)?;
    }
    Ok(ones)
}

#[test]
fn a_request_that_comes_byte_by_byte_has_the_same_reply(rt: HostRuntime) -> Result<(), Fail> {
    let alloc: Global = rt.alloc();
    let pieces = ones(alloc, TRIGGER.len())?;
    let link = link_of(alloc, TRIGGER, pieces, OtherSide::HangsUp, never(alloc))?;
    let (turn, written) = exchanged(&rt, alloc, link, 1_029_999)?;
    assert_eq!(rt; turn, ExTurn::Done);
    assert_eq!(rt; written.as_slice(), TRIGGERED.as_bytes());
    Ok(())
}

/// The request whose body has 1,048,576 bytes.
fn long_request(alloc: Global) -> Result<String, AllocError> {
    let mut text = String::from_str(alloc, LONG_HEAD)?;
    text.push_str(EVENT)?;
    for _blank in 0..BLANKS {
        text.push(' ')?;
    }
    Ok(text)
}

#[test]
fn the_longest_body_is_read(rt: HostRuntime) -> Result<(), Fail> {
    let alloc: Global = rt.alloc();
    let text = long_request(alloc)?;
    let link = quiet_link(alloc, text.as_str())?;
    let (turn, written) = exchanged(&rt, alloc, link, 1_000_000)?;
    assert_eq!(rt; turn, ExTurn::Done);
    assert_eq!(rt; written.as_slice(), TRIGGERED.as_bytes());
    Ok(())
}

#[test]
fn a_request_that_is_not_whole_in_time_is_refused(rt: HostRuntime) -> Result<(), Fail> {
    let alloc: Global = rt.alloc();
    let (turn, written) = exchanged(&rt, alloc, quiet_link(alloc, "POST")?, 1_029_999)?;
    assert_eq!(rt; turn, ExTurn::Idle);
    assert_eq!(rt; written.as_slice(), b"".as_slice());
    let (turn, written) = exchanged(&rt, alloc, quiet_link(alloc, "POST")?, 1_030_000)?;
    assert_eq!(rt; turn, ExTurn::Done);
    assert_eq!(rt; written.as_slice(), TOO_LATE.as_bytes());
    Ok(())
}

#[test]
fn a_link_that_fails_waits_or_ends_is_told(rt: HostRuntime) -> Result<(), Fail> {
    let alloc: Global = rt.alloc();
    // The first two calls read, and the third one writes.
    for call in 1..4_usize {
        let script = Script::new(vec![in alloc; call]?, Vec::new(alloc));
        let link = link_of(alloc, TRIGGER, vec![in alloc; 5]?, OtherSide::Stays, script)?;
        let (turn, written) = exchanged(&rt, alloc, link, 1_000_000)?;
        assert_eq!(rt; turn, ExTurn::Fault);
        assert_eq!(rt; written.as_slice(), b"".as_slice());
        let script = Script::new(Vec::new(alloc), vec![in alloc; call]?);
        let link = link_of(alloc, TRIGGER, vec![in alloc; 5]?, OtherSide::Stays, script)?;
        let (turn, written) = exchanged(&rt, alloc, link, 1_000_000)?;
        assert_eq!(rt; turn, ExTurn::Done);
        assert_eq!(rt; written.as_slice(), TRIGGERED.as_bytes());
    }
    let link = link_of(
        alloc,
        "POST",
        Vec::new(alloc),
        OtherSide::HangsUp,
        never(alloc),
    )?;
    let (turn, _) = exchanged(&rt, alloc, link, 1_000_000)?;
    assert_eq!(rt; turn, ExTurn::Peer);
    Ok(())
}

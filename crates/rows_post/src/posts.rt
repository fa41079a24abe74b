ghost use Rattle.std.specs.Prelude.{IfOk};
ghost use Rattle.ch_edge.specs.Ends.{IsNewLink};

use ch_base::{Bytes, Text};
use ch_edge::MemDial;
use ch_io::{Post, Posted};
use ch_net::{MemLink, OtherSide, Script};
use ch_post::LinkPost;
use std::alloc::Global;
use std::test::Fail;

/// A link over which the receiver answers these bytes and hangs up.
fn link(alloc: Global, answer: &[u8]) -> Result<MemLink, Fail>
    ensures { IfOk result IsNewLink }
{
    let script = Script::new(Vec::new(alloc), Vec::new(alloc));
    let bytes = answer.to_vec(alloc)?;
    Ok(MemLink::new(alloc, bytes, Vec::new(alloc), OtherSide::HangsUp, script))
}

#[test]
fn a_body_is_posted_and_its_status_read(rt: HostRuntime) -> Result<(), Fail> {
    let alloc: Global = rt.alloc();
    let links = vec![in alloc;
        link(alloc, b"HTTP/1.1 204 No Content\r\n")?,
        link(alloc, b"HTTP/1.0 500 Oh\r\n\r\nno")?,
        link(alloc, b"HTTP/2 200\n")?,
        link(alloc, b"HTTP/1.1 200")?,
    ]?;
    let dial = MemDial::new(links, vec![in alloc; 3]?);
    let host = Text::of(alloc, "example.org:8080")?;
    let path = Text::of(alloc, "/hook?a=1")?;
    let mut post = LinkPost::new(alloc, dial, &host, &path)?;
    let body = Bytes::from_vec(b"{}".to_vec(alloc)?);
    let key = Text::of(alloc, "k")?;
    let signature = [b'5'; 64];
    let first = post.post(&body, &key, &signature);
    let written = match post.last() {
        Some(link) => link.written().to_vec(alloc)?,
        None => Vec::new(alloc),
    };
    let wanted =
        "POST /hook?a=1 HTTP/1.1\r\nHost: example.org:8080\r\nContent-Type: application/json\r\n\
        X-Pusher-Key: k\r\n\
        X-Pusher-Signature: 5555555555555555555555555555555555555555555555555555555555555555\r\n\
        Content-Length: 2\r\nConnection: close\r\n\r\n{}";
    assert_eq!(rt; written.as_slice(), wanted.as_bytes());
    assert_eq!(rt; post.seen(), b"HTTP/1.1 204 No Content\r\n".as_slice());
    let mut posted = vec![in alloc; first]?;
    for _ in 0..4_u8 {
        posted.push(post.post(&body, &key, &signature))?;
    }
    let wanted = [
        Posted::Status(204),
        Posted::Status(500),
        Posted::Failed,
        Posted::Failed,
        Posted::Failed,
    ];
    assert_eq!(rt; posted.as_slice(), wanted.as_slice());
    Ok(())
}

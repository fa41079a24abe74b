use ch_base::{Memory, Text};
use ch_http::{Look, Request, RequestReader, Route, read_query};
use std::alloc::Global;
use std::str::from_utf8;
use std::test::Fail;

/// A reader that got these bytes at once, at the moment 5.
fn reader_of(alloc: Global, bytes: &[u8]) -> Result<RequestReader, Memory> {
    let mut reader = RequestReader::new(alloc, 5);
    reader.feed(bytes)?;
    Ok(reader)
}

/// What the server of the app 1 makes of what was fed, in words.
fn told(alloc: Global, reader: &RequestReader, now: u64) -> Result<String, Fail> {
    let app_id = Text::of(alloc, "1")?;
    let words = match reader.look(alloc, &app_id, now)? {
        Look::Need => String::from_str(alloc, "need")?,
        Look::Upgrade(head) => format!(in alloc; "upgrade {}", head.used)?,
        Look::Ready(request) => request_words(alloc, &request)?,
        Look::Refuse(status) => format!(in alloc; "{status}")?,
    };
    Ok(words)
}

fn request_words(alloc: Global, request: &Request) -> Result<String, Fail> {
    let mut words = String::from_str(alloc, route_word(&request.route))?;
    words.push(' ')?;
    words.push_str(request.path.as_str())?;
    for param in request.params.as_slice() {
        let (name, value) = (param.name.as_str(), param.value.as_str());
        let text = format!(in alloc; " {name}={value}")?;
        words.push_str(text.as_str())?;
    }
    if request.doubled {
        words.push_str(" doubled")?;
    }
    words.push(' ')?;
    words.push_str(from_utf8(request.body.as_slice())?)?;
    Ok(words)
}

fn route_word(route: &Route) -> &str {
    match route {
        Route::Events => "events",
        Route::BatchEvents => "batch",
        Route::Channels => "channels",
        Route::Channel(name) => name.as_str(),
        Route::ChannelUsers(name) => name.as_str(),
        Route::Terminate(user) => user.as_str(),
    }
}

const POST: &[u8] =
    b"POST /apps/1/events?auth_key=k&Info=a+b HTTP/1.1\r\nHost: h\r\nContent-Length: 4\r\n\r\n{\"\"}";

const POSTED: &str = "events /apps/1/events auth_key=k info=a b {\"\"}";

/// Bytes, and what they are.
const REQUESTS: [(&[u8], &str); 28] = [
    (POST, POSTED),
    (
        b"GET /apps/1/channels/presence-a%2Cb/users?x=1&X=2 HTTP/1.1\r\nHost: h\r\n\r\nmore",
        "presence-a,b /apps/1/channels/presence-a%2Cb/users x=1 doubled ",
    ),
    (b"GET  /apps/1/channels HTTP/1.1\r\n\r\n", "400"),
    (b"GET /apps/1/channels HTTP/1.1\r\nHost : h\r\n\r\n", "400"),
    (b"GET /\xff HTTP/1.1\r\n\r\n", "400"),
    (b"GET /\xff", "need"),
    (b"POST /apps/2/events HTTP/1.1\r\n\r\n", "404"),
    (b"POST /apps/%31/events HTTP/1.1\r\n\r\n", "404"),
    (b"GET /apps/1/channels/ HTTP/1.1\r\n\r\n", "404"),
    (b"GET / HTTP/1.1\r\n\r\n", "404"),
    (b"POST /apps/1/channels HTTP/1.1\r\n\r\n", "405"),
    (b"get /apps/1/channels HTTP/1.1\r\n\r\n", "405"),
    (b"GET /apps/1/channels/%ff HTTP/1.1\r\n\r\n", "400"),
    (
        b"GET /apps/1/channels/%zz HTTP/1.0\n\n",
        "%zz /apps/1/channels/%zz ",
    ),
    (b"POST /apps/1/events HTTP/1.1\r\n\r\n", "411"),
    (
        b"POST /apps/1/events HTTP/1.1\r\ncontent-length: 0\r\nTransfer-Encoding: gzip\r\n\r\n",
        "411",
    ),
    (
        b"POST /apps/1/events HTTP/1.1\r\ncontent-length: 2\r\nContent-Length: 02\r\n\r\n{}",
        "events /apps/1/events {}",
    ),
    (
        b"POST /apps/1/events HTTP/1.1\r\ncontent-length: 2\r\nContent-Length: 3\r\n\r\n{}",
        "400",
    ),
    (
        b"POST /apps/1/events HTTP/1.1\r\nContent-Length: +2\r\n\r\n{}",
        "400",
    ),
    (
        b"POST /apps/1/events HTTP/1.1\r\nContent-Length: 00000000000000000002\r\n\r\n{}",
        "400",
    ),
    (
        b"POST /apps/1/events HTTP/1.1\r\nContent-Length: 1048576\r\n\r\n",
        "need",
    ),
    (
        b"POST /apps/1/events HTTP/1.1\r\nContent-Length: 1048577\r\n\r\n",
        "413",
    ),
    (
        b"GET / HTTP/1.1\r\nUpgrade: websocket\r\n\r\n",
        "upgrade 38",
    ),
    (
        b"GET /apps/2/channels HTTP/1.0\r\nUPGRADE: WebSocket\r\n\r\n",
        "upgrade 53",
    ),
    (
        b"GET / HTTP/1.1\r\nUpgrade: a\r\nUpgrade: h2c ,\twebsocket\r\n\r\n",
        "upgrade 56",
    ),
    (b"GET / HTTP/1.1\r\nUpgrade: websockets\r\n\r\n", "404"),
    (b"POST / HTTP/1.1\r\nUpgrade: websocket\r\n\r\n", "404"),
    (
        b"\r\nGET /app/k HTTP/1.1\r\nUpgrade: websocket\r\n\r\nabc",
        "upgrade 45",
    ),
];

#[test]
fn bytes_are_a_request_or_have_a_first_fault(rt: HostRuntime) -> Result<(), Fail> {
    let alloc: Global = rt.alloc();
    for (bytes, want) in REQUESTS {
        let got = told(alloc, &reader_of(alloc, bytes)?, 30_004)?;
        assert_eq!(rt; got.as_str(), want);
    }
    Ok(())
}

#[test]
fn a_request_is_whole_with_its_last_byte(rt: HostRuntime) -> Result<(), Fail> {
    let alloc: Global = rt.alloc();
    let mut reader = RequestReader::new(alloc, 0);
    for byte in POST {
        let before = told(alloc, &reader, 0)?;
        assert_eq!(rt; before.as_str(), "need");
        reader.feed(&[*byte])?;
    }
    reader.feed(b"more")?;
    let whole = told(alloc, &reader, 30_000)?;
    assert_eq!(rt; whole.as_str(), POSTED);
    Ok(())
}

#[test]
fn the_bytes_behind_a_head_are_kept(rt: HostRuntime) -> Result<(), Fail> {
    let alloc: Global = rt.alloc();
    let mut reader = RequestReader::new(alloc, 0);
    reader.feed(b"GET / HTTP/1.1\r\n\r\nabc")?;
    assert_eq!(rt; reader.rest(alloc, 18)?.as_slice(), b"abc".as_slice());
    Ok(())
}

/// The front, and then so many times the filling, and then the end.
fn filled(
    alloc: Global,
    front: &[u8],
    filling: &[u8],
    count: u64,
    end: &[u8],
) -> Result<RequestReader, Memory> {
    let mut reader = reader_of(alloc, front)?;
    for _ in 0..count {
        reader.feed(filling)?;
    }
    reader.feed(end)?;
    Ok(reader)
}

#[test]
fn a_head_has_limits(rt: HostRuntime) -> Result<(), Fail> {
    let alloc: Global = rt.alloc();
    let rows: [(&[u8], &[u8], u64, &[u8], &str); 5] = [
        (b"GET /", b"a", 8186, b"", "need"),
        (b"GET /", b"a", 8187, b"", "431"),
        (b"GET / HTTP/1.1\n", b"a:\n", 64, b"", "need"),
        (b"GET / HTTP/1.1\n", b"a:\n", 64, b"\n", "404"),
        (b"GET / HTTP/1.1\n", b"a:\n", 65, b"", "431"),
    ];
    for (front, filling, count, end, want) in rows {
        let reader = filled(alloc, front, filling, count, end)?;
        let got = told(alloc, &reader, 5)?;
        assert_eq!(rt; got.as_str(), want, "with {count}");
    }
    Ok(())
}

#[test]
fn a_request_has_30_seconds(rt: HostRuntime) -> Result<(), Fail> {
    let alloc: Global = rt.alloc();
    let mut reader = reader_of(alloc, b"GET /apps/1/channels HTTP/1.1\r\n")?;
    for (now, want) in [(30_004, "need"), (30_005, "408")] {
        let got = told(alloc, &reader, now)?;
        assert_eq!(rt; got.as_str(), want);
    }
    reader.feed(b"\r\n")?;
    let got = told(alloc, &reader, 30_005)?;
    assert_eq!(rt; got.as_str(), "channels /apps/1/channels ");
    Ok(())
}

#[test]
fn queries_are_decoded(rt: HostRuntime) -> Result<(), Fail> {
    let alloc: Global = rt.alloc();
    let query = read_query(alloc, "&b=x+y%41&A%2D=1&a-=2&c=%zz%ff&d")?;
    let rows = [("a-", "1"), ("b", "x yA"), ("c", "%zz\u{fffd}"), ("d", "")];
    for (name, expected) in rows {
        let value = query.params.get(name).ok_or("no value")?;
        assert_eq!(rt; value.as_str(), expected);
    }
    assert_eq!(rt; query.params.as_slice().len(), 4);
    assert!(rt; query.doubled);
    assert!(rt; !read_query(alloc, "a=1&b=1")?.doubled);
    Ok(())
}

//! Handshakes with the worked key of RFC 6455, section 1.3, whose accept value is told there.
use ch_base::{Bytes, Memory, Text};
use ch_requests::{FieldList, Head, HeadField};
use ch_shake::{HandshakeFault, Shake, accept_value, handshake_key, shake};
use std::alloc::Global;
use std::str::from_utf8;
use std::test::Fail;

const KEY: &str = "dGhlIHNhbXBsZSBub25jZQ==";

/// The head of a handshake of this version of the protocol.
fn head(alloc: Global, version: &str) -> Result<Head, Memory> {
    let rows = [
        ("Upgrade", "websocket"),
        ("Connection", "Upgrade"),
        ("Sec-WebSocket-Key", KEY),
        ("Sec-WebSocket-Version", version),
    ];
    let mut fields = FieldList::new(alloc);
    for (name, value) in rows {
        fields.push(HeadField {
            name: Text::of(alloc, name)?,
            value: Bytes::from_vec(value.as_bytes().to_vec(alloc)?),
        })?;
    }
    Ok(Head {
        method: Text::of(alloc, "GET")?,
        target: Text::of(alloc, "/app/k")?,
        minor: 1,
        fields,
        used: 0,
    })
}

/// The bytes that answer a handshake, with the target behind them where it is accepted.
fn answered(alloc: Global, head: &Head) -> Result<Text, Fail> {
    match shake(alloc, head)? {
        Shake::Upgrade { reply, target } => {
            let mut text = Text::of(alloc, from_utf8(reply.as_slice())?)?;
            text.push_str(target.as_str())?;
            Ok(text)
        }
        Shake::Refuse { reply } => {
            let text = Text::of(alloc, from_utf8(reply.as_slice())?)?;
            Ok(text)
        }
    }
}

#[test]
fn handshakes_are_answered(rt: HostRuntime) -> Result<(), Fail> {
    let alloc: Global = rt.alloc();
    let mut old = head(alloc, "13")?;
    old.minor = 0;
    let rows = [
        (
            head(alloc, "13")?,
            "HTTP/1.1 101 Switching Protocols\r\nUpgrade: websocket\r\nConnection: Upgrade\r\nSec-WebSocket-Accept: s3pPLMBiTxaQ9kYGzzhZRbK+xOo=\r\n\r\n/app/k",
        ),
        (
            head(alloc, "12")?,
            "HTTP/1.1 426 Upgrade Required\r\nContent-Type: application/json\r\nContent-Length: 31\r\nSec-WebSocket-Version: 13\r\nConnection: close\r\n\r\n{\"error\":\"version 13 required\"}",
        ),
        (
            old,
            "HTTP/1.1 400 Bad Request\r\nContent-Type: application/json\r\nContent-Length: 23\r\nConnection: close\r\n\r\n{\"error\":\"bad request\"}",
        ),
    ];
    for (head, expected) in rows {
        let text = answered(alloc, &head)?;
        assert_eq!(rt; text.as_str(), expected);
    }
    Ok(())
}

#[test]
fn the_key_is_told_as_it_was_sent(rt: HostRuntime) -> Result<(), Fail> {
    let alloc: Global = rt.alloc();
    let good = head(alloc, "13")?;
    assert!(rt; handshake_key(alloc, &good) == Ok(KEY.as_bytes()));
    let bad = head(alloc, "14")?;
    assert!(rt; handshake_key(alloc, &bad) == Err(HandshakeFault::Status(426)));
    let value = accept_value(alloc, KEY.as_bytes())?;
    assert_eq!(rt; value.as_str(), "s3pPLMBiTxaQ9kYGzzhZRbK+xOo=");
    Ok(())
}

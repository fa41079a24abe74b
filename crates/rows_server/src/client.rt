//! The other side of a server under test: a client with one socket, and the receiver of its webhooks.
use std::alloc::Global;
use std::io;
use std::io::{ErrorKind, Read, Write};
use std::net::{Net, TcpListener, TcpStream};
use std::time::Duration;

/// The key and the accept value are those of RFC 6455, section 1.3.
const HANDSHAKE: &[u8] =
    b"GET /app/k?protocol=7&client=js&version=8.4.0&flash=false HTTP/1.1\r\nHost: localhost\r\nUpgrade: websocket\r\nConnection: Upgrade\r\nSec-WebSocket-Key: dGhlIHNhbXBsZSBub25jZQ==\r\nSec-WebSocket-Version: 13\r\n\r\n";

const SUBSCRIBE: &[u8] = b"{\"event\":\"pusher:subscribe\",\"data\":{\"channel\":\"a\"}}";

/// What a frame of a client is masked with.
const MASK: [u8; 4] = [1, 2, 3, 4];

/// How many seconds a read waits at most.
const PATIENCE: u64 = 30;

/// The longest head that is read, in bytes.
const LONGEST_HEAD: u64 = 8192;

/// What the client was told, as texts.
#[derive(Debug, Drop)]
pub struct Told {
    /// The head of the answer to its handshake.
    pub head: String,
    /// The first two frames.
    pub frames: [String; 2],
    /// The body of the webhook that came.
    pub webhook: String,
}

/// Subscribes to `a` on the server at this port, and takes one webhook.
pub fn subscribe_and_take<R>(
    net: &R,
    alloc: Global,
    port: u16,
    receiver: TcpListener,
) -> io::Result<Told>
where
    R: Net<Stream = TcpStream>,
{
    let mut socket = TcpStream::connect(net, ("127.0.0.1", port))?;
    socket.set_read_timeout(Some(Duration::from_secs(PATIENCE)))?;
    socket.write_all(HANDSHAKE)?;
    let head = read_head(alloc, &mut socket)?;
    let established = read_frame(alloc, &mut socket)?;
    send_frame(alloc, &mut socket, SUBSCRIBE)?;
    let succeeded = read_frame(alloc, &mut socket)?;
    let webhook = take_post(alloc, &receiver)?;
    Ok(Told {
        head,
        frames: [established, succeeded],
        webhook,
    })
}

/// The bytes up to an empty line.
fn read_head(alloc: Global, stream: &mut TcpStream) -> io::Result<String> {
    let mut head = Vec::new(alloc);
    let mut byte = [0_u8];
    for _ in 0..LONGEST_HEAD {
        stream.read_exact(&mut byte)?;
        head.push(byte[0])?;
        if head.ends_with(b"\r\n\r\n") {
            break;
        }
    }
    text_of(head)
}

/// The text of one short frame without a mask (RFC 6455, section 5.2).
fn read_frame(alloc: Global, stream: &mut TcpStream) -> io::Result<String> {
    let mut start = [0_u8; 2];
    stream.read_exact(&mut start)?;
    read_text(alloc, stream, usize::from(start[1]))
}

fn read_text(alloc: Global, stream: &mut TcpStream, length: usize) -> io::Result<String> {
    let mut bytes = vec![in alloc; 0_u8; length]?;
    stream.read_exact(bytes.as_mut_slice())?;
    text_of(bytes)
}

fn text_of(bytes: Vec<u8>) -> io::Result<String> {
    String::from_utf8(bytes).map_err(|_| io::Error::from(ErrorKind::InvalidData))
}

/// Sends a text of at most 125 bytes as one frame.
fn send_frame(alloc: Global, stream: &mut TcpStream, text: &[u8]) -> io::Result<()> {
    let mut frame = Vec::new(alloc);
    frame.push(0x81)?;
    frame.push(0x80 | u8::try_from(text.len()).unwrap_or(0))?;
    frame.extend_from_slice(&MASK)?;
    for (i, byte) in text.iter().enumerate() {
        frame.push(*byte ^ MASK[i % 4])?;
    }
    stream.write_all(frame.as_slice())
}

/// The body of one webhook, which is answered with 204.
fn take_post(alloc: Global, receiver: &TcpListener) -> io::Result<String> {
    let (mut post, _) = receiver.accept()?;
    let head = read_head(alloc, &mut post)?;
    let body = read_text(alloc, &mut post, length_in(head.as_str()))?;
    post.write_all(b"HTTP/1.1 204 No Content\r\nConnection: close\r\n\r\n")?;
    Ok(body)
}

/// The length that a head tells of its body.
fn length_in(head: &str) -> usize {
    for line in head.lines() {
        if let Some(length) = line.strip_prefix("Content-Length: ") {
            return length.parse::<usize>().unwrap_or(0);
        }
    }
    0
}

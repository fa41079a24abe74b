//! The wire over `tungstenite` (RFC 6455).
ghost use Rattle.std.specs.Prelude.{[]};
ghost use Rattle.ch_net.specs.Wires.{IsNewWire, PumpHasCause, WireMoves};
ghost use Rattle.ch_wswire.specs.Told.{wire_told};

use crate::ready_stream::Readiness;
use ch_base::{Bytes, Text};
use ch_io::Counts;
use ch_net::{Pump, Put, Recv, Wire};
use std::alloc::Global;
use std::io::{ErrorKind, Read, Write};
use tungstenite::{
    CloseCode, CloseFrame, Error, Message, NoMask, Role, Utf8Bytes, WebSocket, WebSocketConfig,
};
use websocket::error::ProtocolError;

/// The largest message, in bytes. A larger one is a fault of the wire.
const LONGEST_MESSAGE: usize = 1_048_576;

/// What a wire reads at once, in bytes.
const READ_SIZE: usize = 4096;

/// A wire over a stream whose handshake is done.
///
/// All frames of a turn go out in one write, at the pump. It reads only after a pump that was clear, so that no answer
/// that waits is dropped. Where it found no message and its stream isn't ready it asks nothing again.
#[derive(Drop)]
pub struct TungWire<S: Read + Write + Readiness + Drop> {
    alloc: Global,
    socket: WebSocket<S, NoMask>,
    // Nothing waits to be sent.
    clear: bool,
    // No whole message is left of what was read.
    drained: bool,
    closes: u64,
    code: Option<u16>,
    counts: Counts,
}

/// What an error of the socket is to the wire.
#[derive(Drop)]
enum Slip {
    Wait,
    Ended,
    Fault,
    Memory,
}

fn slip_of(error: Error) -> Slip {
    match error {
        Error::Io(cause) => match cause.kind() {
            ErrorKind::WouldBlock | ErrorKind::Interrupted => Slip::Wait,
            _ => Slip::Fault,
        },
        Error::ConnectionClosed | Error::AlreadyClosed => Slip::Ended,
        Error::Protocol(ProtocolError::ResetWithoutClosingHandshake) => Slip::Ended,
        Error::OutOfMemory => Slip::Memory,
        Error::WriteBufferFull => Slip::Wait,
        _ => Slip::Fault,
    }
}

fn settings() -> WebSocketConfig {
    WebSocketConfig::default()
        .read_buffer_size(READ_SIZE)
        .write_buffer_size(usize::MAX)
        .max_write_buffer_size(2 * LONGEST_MESSAGE)
        .max_message_size(Some(LONGEST_MESSAGE))
        .max_frame_size(Some(LONGEST_MESSAGE))
}

impl<S: Read + Write + Readiness + Drop> TungWire<S> {
    /// A wire over this stream, with the bytes that were read behind the handshake's head.
    pub fn new(alloc: Global, stream: S, seen: Bytes) -> TungWire<S>
        ensures { IsNewWire (wire_told result) }
    {
        let socket = WebSocket::from_partially_read(
            alloc,
            stream,
            NoMask,
            seen.into_vec(),
            Role::Server,
            Some(settings()),
        );
        TungWire {
            alloc,
            socket,
            clear: true,
            drained: false,
            closes: 0,
            code: None,
            counts: Counts::new(),
        }
    }

    /// What came of sending on what waits.
    fn pumped(&mut self, done: Result<(), Error>) -> Pump
        ensures moves { WireMoves (wire_told self.old) (wire_told self.new) [] [] [] }
        ensures cause { PumpHasCause result (wire_told self.old).counts (wire_told self.new).counts }
    {
        match done {
            Ok(()) => {
                self.clear = true;
                Pump::Clear
            }
            Err(error) => {
                self.clear = false;
                match slip_of(error) {
                    Slip::Wait => {
                        self.counts.count_stall();
                        Pump::Waiting
                    }
                    _ => {
                        self.counts.count_fault();
                        Pump::Failed
                    }
                }
            }
        }
    }
}

impl<S: Read + Write + Readiness + Drop> Wire for TungWire<S> {
    ghost use Rattle.ch_wswire.specs.Told.{wire_told};

    ghost told = { wire_told };

    fn recv(&mut self) -> Recv {
        if !self.clear || (self.drained && !self.socket.get_ref().may_read()) {
            self.counts.count_stall();
            return Recv::Quiet;
        }
        let read = self.socket.read();
        self.clear = false;
        self.drained = false;
        match read {
            Ok(Message::Text(text)) => match Text::of(self.alloc, text.as_str()) {
                Ok(text) => Recv::Said(text),
                Err(_) => Recv::Memory,
            },
            Ok(Message::Binary(_)) => Recv::Binary,
            Ok(Message::Ping(_) | Message::Pong(_)) => {
                self.counts.count_stall();
                Recv::Quiet
            }
            Ok(Message::Close(_)) => {
                // The answer to the close goes out if the stream takes it now.
                let _sent = self.socket.flush();
                self.counts.count_end();
                Recv::Gone
            }
            Err(error) => match slip_of(error) {
                Slip::Wait => {
                    self.drained = true;
                    self.counts.count_stall();
                    Recv::Quiet
                }
                Slip::Ended => {
                    self.counts.count_end();
                    Recv::Gone
                }
                Slip::Memory => Recv::Memory,
                Slip::Fault => {
                    self.counts.count_fault();
                    Recv::Failed
                }
            },
        }
    }

    fn send(&mut self, text: &Text) -> Put {
        let Ok(message) = Message::text(self.alloc, text.as_str()) else {
            return Put::Memory;
        };
        self.clear = false;
        match self.socket.write(message) {
            Ok(()) => Put::Put,
            Err(Error::WriteBufferFull) => {
                self.counts.count_stall();
                Put::Waiting
            }
            Err(Error::OutOfMemory) => Put::Memory,
            // The frame is in the output all the same.
            Err(Error::Io(cause)) if cause.kind() == ErrorKind::WouldBlock => Put::Put,
            Err(_) => {
                self.counts.count_fault();
                Put::Failed
            }
        }
    }

    fn pump(&mut self) -> Pump {
        if self.clear {
            return Pump::Clear;
        }
        let done = self.socket.flush();
        self.pumped(done)
    }

    fn close(&mut self, code: u16) -> Pump {
        let frame = CloseFrame {
            code: CloseCode::from(code),
            reason: Utf8Bytes::from_static(""),
        };
        self.closes = self.closes.saturating_add(1);
        self.code = Some(code);
        let done = self.socket.close(Some(frame));
        self.pumped(done)
    }
}

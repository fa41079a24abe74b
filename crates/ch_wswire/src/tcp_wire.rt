ghost use Rattle.ch_net.specs.Wires.{IsNewWire};
ghost use Rattle.ch_wswire.specs.Told.{wire_told};

use crate::ready_stream::ReadyStream;
use crate::tung_wire::TungWire;
use ch_base::{Bytes, Text};
use ch_net::{Pump, Put, Recv, Wire};
use mio::net::TcpStream;
use std::alloc::Global;

/// The wire over a TCP socket.
#[derive(Drop)]
pub struct TcpWire {
    inner: TungWire<ReadyStream<TcpStream>>,
}

impl TcpWire {
    /// A wire over this stream, with the bytes that were read behind the handshake's head.
    pub(crate) fn new(alloc: Global, stream: ReadyStream<TcpStream>, seen: Bytes) -> TcpWire
        ensures { IsNewWire (wire_told result.inner) }
    {
        TcpWire {
            inner: TungWire::new(alloc, stream, seen),
        }
    }
}

impl Wire for TcpWire {
    ghost use Rattle.ch_wswire.specs.Told.{wire_told};

    ghost told = { λ w. wire_told w.inner };

    fn recv(&mut self) -> Recv {
        self.inner.recv()
    }

    fn send(&mut self, text: &Text) -> Put {
        self.inner.send(text)
    }

    fn pump(&mut self) -> Pump {
        self.inner.pump()
    }

    fn close(&mut self, code: u16) -> Pump {
        self.inner.close(code)
    }
}

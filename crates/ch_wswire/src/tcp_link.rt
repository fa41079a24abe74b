ghost use Rattle.std.specs.Prelude.{◌≡◌};
ghost use Rattle.ch_io.specs.Counts.{nothing_counted};

use crate::ready::Ready;
use crate::ready_stream::ReadyStream;
use crate::tcp_wire::TcpWire;
use ch_base::Bytes;
use ch_io::Counts;
use ch_net::{Link, LinkGot, LinkWrote, Unmade};
use mio::net::TcpStream;
use mio::{Interest, Registry, Token};
use std::alloc::Global;
use std::io;
use std::io::{ErrorKind, Read, Write};
use std::sync::Arc;

/// A link over a TCP socket.
#[derive(Drop)]
pub struct TcpLink {
    alloc: Global,
    stream: ReadyStream<TcpStream>,
    counts: Counts,
}

impl TcpLink {
    /// A link over a stream that doesn't block. It asks the system each time until a poller takes it on.
    pub fn new(alloc: Global, stream: TcpStream) -> TcpLink
        ensures { result.counts ≡ nothing_counted }
    {
        TcpLink {
            alloc,
            stream: ReadyStream::new(stream),
            counts: Counts::new(),
        }
    }

    /// Has this registry report the socket.
    pub(crate) fn register(
        &mut self,
        registry: &Registry,
        token: Token,
        interests: Interest,
    ) -> io::Result<()>
        ensures { self.new.counts ≡ self.old.counts }
    {
        registry.register(self.stream.stream_mut(), token, interests)
    }

    /// Goes by these marks from now on.
    pub(crate) fn go_by(&mut self, ready: Arc<Ready, Global>)
        ensures { self.new.counts ≡ self.old.counts }
    {
        self.stream.go_by(ready);
    }
}

impl Link for TcpLink {
    ghost use Rattle.std.specs.Prelude.{None};
    ghost use Rattle.ch_wswire.specs.Told.{link_told};

    type Wire = TcpWire;

    ghost told = { λ l. link_told l.counts };

    ghost messages = { λ _ _. None };

    fn read(&mut self, buf: &mut [u8]) -> LinkGot {
        match self.stream.read(buf) {
            Ok(0) => {
                self.counts.count_end();
                LinkGot::Ended
            }
            Ok(n) => LinkGot::Read(n),
            Err(error) => match error.kind() {
                ErrorKind::WouldBlock | ErrorKind::Interrupted => {
                    self.counts.count_stall();
                    LinkGot::NotYet
                }
                _ => {
                    self.counts.count_fault();
                    LinkGot::Failed
                }
            },
        }
    }

    fn write(&mut self, bytes: &[u8]) -> LinkWrote {
        match self.stream.write(bytes) {
            Ok(0) => {
                self.counts.count_fault();
                LinkWrote::Failed
            }
            Ok(n) => LinkWrote::Wrote(n),
            Err(error) => match error.kind() {
                ErrorKind::WouldBlock | ErrorKind::Interrupted => {
                    self.counts.count_stall();
                    LinkWrote::NotYet
                }
                _ => {
                    self.counts.count_fault();
                    LinkWrote::Failed
                }
            },
        }
    }

    fn upgrade(self, seen: Bytes) -> Result<TcpWire, Unmade<TcpLink>> {
        let TcpLink {
            alloc,
            stream,
            counts: _,
        } = self;
        Ok(TcpWire::new(alloc, stream, seen))
    }
}

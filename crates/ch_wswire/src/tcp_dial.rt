ghost use Rattle.std.specs.Prelude.{◌≡◌, IfOk};
ghost use Rattle.ch_io.specs.Counts.{nothing_counted};

use crate::ready_stream::ReadyStream;
use crate::tcp_wire::TcpWire;
use ch_base::Bytes;
use ch_edge::{Dial, Dialed};
use ch_io::Counts;
use ch_net::{Link, LinkGot, LinkWrote, Unmade};
use std::alloc::Global;
use std::io;
use std::io::{ErrorKind, Read, Write};
use std::net::{Net, TcpStream, ToSocketAddrs};
use std::time::Duration;

/// How many seconds a connection may take to be made.
const DIAL_SECONDS: u64 = 10;

/// How many milliseconds a dialled link waits for the other side before it asks for patience.
const LINK_MILLIS: u64 = 30;

/// Makes TCP connections to one host and port. It waits until a connection is made, 10 seconds at most for each address of
/// the host.
#[derive(Drop)]
pub struct TcpDial<R: Net<Stream = TcpStream> + Drop> {
    net: R,
    alloc: Global,
    host: String,
    port: u16,
    faults: u64,
}

impl<R: Net<Stream = TcpStream> + Drop> TcpDial<R> {
    /// Dials this host, a name or an IP address, at this port.
    pub fn new(net: R, alloc: Global, host: String, port: u16) -> TcpDial<R> {
        TcpDial {
            net,
            alloc,
            host,
            port,
            faults: 0,
        }
    }

    /// A connection to the first of the host's addresses that takes one.
    fn connect(&self) -> io::Result<TcpStream> {
        let patience = Duration::from_secs(DIAL_SECONDS);
        let mut last = io::Error::from(ErrorKind::NotFound);
        for address in (self.host.as_str(), self.port).to_socket_addrs(&self.net)? {
            match TcpStream::connect_timeout(&self.net, &address, patience) {
                Ok(stream) => return Ok(stream),
                Err(error) => last = error,
            }
        }
        Err(last)
    }

    /// A new link to the host.
    fn link(&self) -> io::Result<PatientLink>
        ensures { IfOk result (λ link. link.counts ≡ nothing_counted) }
    {
        let patience = Duration::from_millis(LINK_MILLIS);
        let stream = self.connect()?;
        stream.set_nodelay(true)?;
        stream.set_read_timeout(Some(patience))?;
        stream.set_write_timeout(Some(patience))?;
        Ok(PatientLink::new(self.alloc, stream))
    }
}

impl<R: Net<Stream = TcpStream> + Drop> Dial for TcpDial<R> {
    type Conn = PatientLink;

    ghost faults = { λ d. d.faults };

    fn dial(&mut self) -> Dialed<PatientLink> {
        match self.link() {
            Ok(link) => Dialed::Made(link),
            Err(_) => {
                self.faults = self.faults.saturating_add(1);
                Dialed::Failed
            }
        }
    }
}

/// A link over a dialled TCP socket. Each call waits for the other side, 30 ms at most, before it asks for patience.
#[derive(Drop)]
pub struct PatientLink {
    alloc: Global,
    stream: TcpStream,
    counts: Counts,
}

impl PatientLink {
    /// A link over a stream whose reads and writes end after a while.
    fn new(alloc: Global, stream: TcpStream) -> PatientLink
        ensures { result.counts ≡ nothing_counted }
    {
        PatientLink {
            alloc,
            stream,
            counts: Counts::new(),
        }
    }
}

impl Link for PatientLink {
    ghost use Rattle.std.specs.Prelude.{None};
    ghost use Rattle.ch_wswire.specs.Told.{link_told};

    type Wire = TcpWire;

    ghost told = { λ l. link_told l.counts };

    ghost messages = { λ _ _. None };

    fn read(&mut self, buf: &mut [u8]) -> LinkGot {
        match self.stream.read(buf) {
            Ok(0) => {
                self.counts.count_end();
                LinkGot::Ended
            }
            Ok(n) => LinkGot::Read(n),
            Err(error) => match error.kind() {
                ErrorKind::WouldBlock | ErrorKind::TimedOut | ErrorKind::Interrupted => {
                    self.counts.count_stall();
                    LinkGot::NotYet
                }
                _ => {
                    self.counts.count_fault();
                    LinkGot::Failed
                }
            },
        }
    }

    fn write(&mut self, bytes: &[u8]) -> LinkWrote {
        match self.stream.write(bytes) {
            Ok(0) => {
                self.counts.count_fault();
                LinkWrote::Failed
            }
            Ok(n) => LinkWrote::Wrote(n),
            Err(error) => match error.kind() {
                ErrorKind::WouldBlock | ErrorKind::TimedOut | ErrorKind::Interrupted => {
                    self.counts.count_stall();
                    LinkWrote::NotYet
                }
                _ => {
                    self.counts.count_fault();
                    LinkWrote::Failed
                }
            },
        }
    }

    fn upgrade(self, seen: Bytes) -> Result<TcpWire, Unmade<PatientLink>> {
        let PatientLink {
            alloc,
            stream,
            counts: _,
        } = self;
        let _ = stream.set_nonblocking(true);
        let stream = mio::net::TcpStream::from_std(stream);
        Ok(TcpWire::new(alloc, ReadyStream::new(stream), seen))
    }
}

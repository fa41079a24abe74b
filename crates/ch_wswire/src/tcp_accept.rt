use crate::tcp_link::TcpLink;
use ch_edge::{Accept, Accepted};
use ch_io::Counts;
use mio::net::TcpListener;
use mio::{Events, Interest, Poll, Token};
use std::alloc::Global;
use std::io;
use std::io::ErrorKind;
use std::net::{Net, SocketAddr};
use std::time::Duration;

/// A listening socket. Where nobody waits to come in, it waits for an arrival, for at most its pause, before it answers
/// `NotYet`.
#[derive(Drop)]
pub struct TcpAccept {
    alloc: Global,
    listener: TcpListener,
    poll: Poll,
    events: Events<Global>,
    pause: Duration,
    counts: Counts,
}

impl TcpAccept {
    /// Listens at this address.
    pub fn new(
        net: &impl Net,
        alloc: Global,
        address: SocketAddr,
        pause: Duration,
    ) -> io::Result<TcpAccept> {
        let mut listener = TcpListener::bind(net, address)?;
        let poll = Poll::new(net)?;
        poll.registry()
            .register(&mut listener, Token(0), Interest::READABLE)?;
        Ok(TcpAccept {
            alloc,
            listener,
            poll,
            events: Events::with_capacity(alloc, 1)?,
            pause,
            counts: Counts::new(),
        })
    }

    /// The address that it listens at.
    pub fn local_addr(&self) -> io::Result<SocketAddr> {
        self.listener.local_addr()
    }
}

impl Accept for TcpAccept {
    type Conn = TcpLink;

    ghost counts = { λ a. a.counts };

    fn accept(&mut self) -> Accepted<TcpLink> {
        match self.listener.accept() {
            Ok((stream, _)) => {
                // A frame that is held back for want of an answer would come late.
                let _ = stream.set_nodelay(true);
                Accepted::Made(TcpLink::new(self.alloc, stream))
            }
            Err(error) => {
                // After a refusal the next arrival is an event. An error, as want of descriptors, may be none, so the
                // wait is bounded.
                let _ = self.poll.poll(&mut self.events, Some(self.pause));
                match error.kind() {
                    ErrorKind::WouldBlock | ErrorKind::Interrupted => {
                        self.counts.count_stall();
                        Accepted::NotYet
                    }
                    _ => {
                        self.counts.count_fault();
                        Accepted::Failed
                    }
                }
            }
        }
    }
}

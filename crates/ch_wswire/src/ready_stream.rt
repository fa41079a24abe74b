ghost use Rattle.std.specs.Prelude.{◌≡◌};

use crate::ready::Ready;
use std::alloc::Global;
use std::io;
use std::io::{ErrorKind, Read, Write};
use std::sync::Arc;

/// A stream that knows when asking it is of no use.
pub trait Readiness {
    /// Whether a read may find something. Where it may not, a read would be refused.
    fn may_read(&self) -> bool;
}

/// A stream that answers `WouldBlock` at once, with no call of the system, while it is known not to be ready.
///
/// A stream that no poller has taken on asks the system each time.
#[derive(Drop)]
pub struct ReadyStream<S: Drop> {
    stream: S,
    ready: Option<Arc<Ready, Global>>,
}

impl<S: Drop> ReadyStream<S> {
    /// A stream that no poller has taken on.
    pub fn new(stream: S) -> ReadyStream<S>
        ensures { result.stream ≡ stream }
    {
        ReadyStream {
            stream,
            ready: None,
        }
    }

    /// Goes by these marks from now on, which a poller sets at the stream's events.
    pub fn go_by(&mut self, ready: Arc<Ready, Global>)
        ensures { self.new.stream ≡ self.old.stream }
    {
        self.ready = Some(ready);
    }

    pub fn stream(&self) -> &S
        ensures { result.now ≡ self.now.stream }
    {
        &self.stream
    }

    pub fn stream_mut(&mut self) -> &mut S {
        &mut self.stream
    }
}

impl<S: Drop> Readiness for ReadyStream<S> {
    fn may_read(&self) -> bool {
        match &self.ready {
            Some(ready) => ready.may_read(),
            None => true,
        }
    }
}

fn refusal() -> io::Error {
    io::Error::from(ErrorKind::WouldBlock)
}

impl<S: Read + Drop> Read for ReadyStream<S> {
    ghost remaining = { λ s. S.remaining s.stream };

    fn read(&mut self, buf: &mut [u8]) -> io::Result<usize> {
        if let Some(ready) = &self.ready {
            if !ready.may_read() {
                return Err(refusal());
            }
        }
        let got = self.stream.read(buf);
        if let Some(ready) = &self.ready {
            match &got {
                Ok(_) => ready.count_move(),
                Err(error) if error.kind() == ErrorKind::WouldBlock => ready.refuse_read(),
                Err(_) => {}
            }
        }
        got
    }
}

impl<S: Write + Drop> Write for ReadyStream<S> {
    ghost contents = { λ s. S.contents s.stream };

    fn write(&mut self, buf: &[u8]) -> io::Result<usize> {
        if let Some(ready) = &self.ready {
            if !ready.may_write() {
                return Err(refusal());
            }
        }
        let wrote = self.stream.write(buf);
        if let Some(ready) = &self.ready {
            match &wrote {
                Ok(_) => ready.count_move(),
                Err(error) if error.kind() == ErrorKind::WouldBlock => ready.refuse_write(),
                Err(_) => {}
            }
        }
        wrote
    }

    fn flush(&mut self) -> io::Result<()> {
        self.stream.flush()
    }
}

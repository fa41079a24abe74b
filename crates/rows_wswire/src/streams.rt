use ch_wswire::{Readiness, Ready, ReadyStream};
use std::io;
use std::io::{ErrorKind, Read, Write};
use std::sync::Arc;
use std::test::Fail;

/// A stream that is never ready, and counts how often it was asked.
#[derive(Drop)]
struct Stubborn {
    asked: u64,
}

impl Read for Stubborn {
    fn read(&mut self, _buf: &mut [u8]) -> io::Result<usize> {
        self.asked = self.asked.saturating_add(1);
        Err(io::Error::from(ErrorKind::WouldBlock))
    }
}

impl Write for Stubborn {
    fn write(&mut self, _buf: &[u8]) -> io::Result<usize> {
        self.asked = self.asked.saturating_add(1);
        Err(io::Error::from(ErrorKind::WouldBlock))
    }

    fn flush(&mut self) -> io::Result<()> {
        Ok(())
    }
}

#[test]
fn a_stream_that_refused_is_asked_again_only_when_marked(rt: HostRuntime) -> Result<(), Fail> {
    let ready = Arc::new(rt.alloc(), Ready::new())?;
    let mut stream = ReadyStream::new(Stubborn { asked: 0 });
    stream.go_by(Arc::try_clone(&ready)?);
    let mut buf = [0_u8; 4];
    for _ in 0..3 {
        let got = stream.read(&mut buf);
        assert!(rt; matches!(&got, Err(e) if e.kind() == ErrorKind::WouldBlock));
        let wrote = stream.write(b"abc");
        assert!(rt; matches!(&wrote, Err(e) if e.kind() == ErrorKind::WouldBlock));
    }
    assert!(rt; !stream.may_read());
    assert_eq!(rt; stream.stream().asked, 2);
    ready.forget();
    let _ = stream.read(&mut buf);
    let _ = stream.read(&mut buf);
    assert_eq!(rt; stream.stream().asked, 3);
    Ok(())
}

#[test]
fn bytes_that_moved_are_told_once(rt: HostRuntime) -> Result<(), Fail> {
    let ready = Arc::new(rt.alloc(), Ready::new())?;
    let mut stream = ReadyStream::new(b"abc".as_slice());
    stream.go_by(Arc::try_clone(&ready)?);
    assert!(rt; !ready.take_moved());
    let mut buf = [0_u8; 2];
    assert!(rt; matches!(&stream.read(&mut buf), Ok(2)));
    assert!(rt; ready.take_moved());
    assert!(rt; !ready.take_moved());
    Ok(())
}

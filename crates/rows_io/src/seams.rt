use ch_io::{
    Clock, Got, MemClock, MemSink, MemSource, ReaderSource, Sink, Source, WriterSink, Wrote,
    write_all,
};
use std::alloc::Global;
use std::io;
use std::io::{ErrorKind, Read, Write};
use std::test::Fail;

/// A disk that answers an error to each call.
#[derive(Drop)]
struct Broken;

impl Read for Broken {
    fn read(&mut self, _buf: &mut [u8]) -> io::Result<usize> {
        Err(io::Error::from(ErrorKind::Other))
    }
}

impl Write for Broken {
    fn write(&mut self, _buf: &[u8]) -> io::Result<usize> {
        Err(io::Error::from(ErrorKind::Other))
    }

    fn flush(&mut self) -> io::Result<()> {
        Ok(())
    }
}

#[test]
fn a_source_in_memory_keeps_its_schedule(rt: HostRuntime) -> Result<(), Fail> {
    let alloc: Global = rt.alloc();
    let bytes = b"abcdefg".to_vec(alloc)?;
    let mut source = MemSource::new(bytes, vec![in alloc; 2, 0, 5]?, vec![in alloc; 3]?);
    let mut buf = [0_u8; 3];
    let wanted = [
        Got::Read(2),
        Got::Read(1),
        Got::Failed,
        Got::Read(3),
        Got::Read(1),
        Got::Ended,
        Got::Ended,
    ];
    for got in wanted {
        assert_eq!(rt; source.read(&mut buf), got);
    }
    assert_eq!(rt; buf, [b'g', b'e', b'f']);
    Ok(())
}

#[test]
fn a_sink_in_memory_keeps_its_schedule(rt: HostRuntime) -> Result<(), Fail> {
    let alloc: Global = rt.alloc();
    let mut sink = MemSink::new(alloc, vec![in alloc; 2]?, vec![in alloc; 2]?);
    assert_eq!(rt; sink.write(b"abc"), Wrote::Wrote(2));
    assert_eq!(rt; sink.write(b"c"), Wrote::Failed);
    assert!(rt; write_all(&mut sink, b"cde").is_ok());
    assert_eq!(rt; sink.as_slice(), b"abcde".as_slice());
    Ok(())
}

#[test]
fn a_reader_is_a_source(rt: HostRuntime) {
    let mut buf = [0_u8; 2];
    let mut source = ReaderSource::new(b"abc".as_slice());
    assert_eq!(rt; source.read(&mut buf), Got::Read(2));
    assert_eq!(rt; source.read(&mut buf), Got::Read(1));
    assert_eq!(rt; buf, [b'c', b'b']);
    assert_eq!(rt; source.read(&mut buf), Got::Ended);
    let mut broken = ReaderSource::new(Broken);
    assert_eq!(rt; broken.read(&mut buf), Got::Failed);
}

#[test]
fn a_writer_is_a_sink(rt: HostRuntime) -> Result<(), Fail> {
    let mut written: Vec<u8> = Vec::new(rt.alloc());
    let mut sink = WriterSink::new(&mut written);
    assert!(rt; write_all(&mut sink, b"abc").is_ok());
    assert_eq!(rt; written.as_slice(), b"abc".as_slice());
    let mut broken = WriterSink::new(Broken);
    assert_eq!(rt; broken.write(b"a"), Wrote::Failed);
    Ok(())
}

#[test]
fn a_clock_in_memory_gives_its_moments(rt: HostRuntime) -> Result<(), Fail> {
    let alloc: Global = rt.alloc();
    let mut clock = MemClock::new(vec![in alloc; 5, 1000, 1000]?);
    for moment in [5, 1000, 1000, 1000] {
        assert_eq!(rt; clock.now(), moment);
    }
    Ok(())
}

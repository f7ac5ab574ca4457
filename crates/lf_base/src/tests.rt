//! Reading and writing at their edges.
use crate::{
    MemSink, MemSource, NeverStop, ReadAll, ReadOut, ScriptStop, Sink, Source, StdSink, StdSource,
    Stop, WriteAll, WriteOut, read_all, write_all,
};
use std::io::{self, ErrorKind, Read, Write};
use std::test::Fail;

/// A reader and writer whose every call fails.
#[derive(Drop)]
struct Broken;

impl Read for Broken {
    fn read(&mut self, _buf: &mut [u8]) -> io::Result<usize> {
        Err(io::Error::from(ErrorKind::Other))
    }
}

impl Write for Broken {
    fn write(&mut self, _buf: &[u8]) -> io::Result<usize> {
        Err(io::Error::from(ErrorKind::Other))
    }

    fn flush(&mut self) -> io::Result<()> {
        Ok(())
    }
}

/// A writer that takes nothing.
#[derive(Drop)]
struct Full;

impl Write for Full {
    fn write(&mut self, _buf: &[u8]) -> io::Result<usize> {
        Ok(0)
    }

    fn flush(&mut self) -> io::Result<()> {
        Ok(())
    }
}

#[test]
fn memory_hands_over_pieces_and_fails_where_listed(rt: HostRuntime) -> Result<(), Fail> {
    let alloc = rt.alloc();
    let mut src = MemSource::new(b"abcde".to_vec(alloc)?, [2].to_vec(alloc)?, 2);
    let mut buf = [0u8; 4];
    let wanted = [
        ReadOut::Bytes(2),
        ReadOut::Failed,
        ReadOut::Bytes(2),
        ReadOut::Bytes(1),
        ReadOut::End,
    ];
    for out in wanted {
        assert_eq!(rt; src.read(&mut buf), out);
    }
    assert_eq!(rt; buf[0], b'e');
    assert_eq!(rt; src.faults, 1);
    Ok(())
}

#[test]
fn memory_takes_pieces_and_fails_where_listed(rt: HostRuntime) -> Result<(), Fail> {
    let alloc = rt.alloc();
    let mut out = MemSink::new(alloc, [2].to_vec(alloc)?, 2);
    for wanted in [WriteOut::Took(2), WriteOut::Failed, WriteOut::Took(2)] {
        assert_eq!(rt; out.write(b"abc"), wanted);
    }
    assert_eq!(rt; out.bytes.as_slice(), b"abab".as_slice());
    assert_eq!(rt; out.faults, 1);
    Ok(())
}

#[test]
fn a_sink_that_stops_takes_so_many_bytes(rt: HostRuntime) {
    let mut out = MemSink::stop_after(rt.alloc(), 7);
    assert!(rt; matches!(write_all(&mut out, b"theorem t"), WriteAll::Failed));
    assert_eq!(rt; out.bytes.as_slice(), b"theorem".as_slice());
    assert_eq!(rt; out.write(b"x"), WriteOut::Failed);
}

#[test]
fn the_real_thing_counts_its_faults(rt: HostRuntime) {
    let mut buf = [0u8; 4];
    let mut src = StdSource::new(b"ab".as_slice());
    assert_eq!(rt; src.read(&mut buf), ReadOut::Bytes(2));
    assert_eq!(rt; src.read(&mut buf), ReadOut::End);
    assert_eq!(rt; src.faults, 0);
    let mut broken = StdSource::new(Broken);
    assert_eq!(rt; broken.read(&mut buf), ReadOut::Failed);
    assert_eq!(rt; broken.faults, 1);
    let mut full = StdSink::new(Full);
    assert_eq!(rt; full.write(b"ab"), WriteOut::Failed);
    assert_eq!(rt; full.faults, 1);
    let mut out = StdSink::new(Broken);
    assert_eq!(rt; out.write(b"ab"), WriteOut::Failed);
    assert_eq!(rt; out.faults, 1);
}

#[test]
fn whole_reads_stop_at_the_limit(rt: HostRuntime) -> Result<(), Fail> {
    let alloc = rt.alloc();
    for (limit, wanted) in [(3, true), (2, false)] {
        let mut src = MemSource::new(b"abc".to_vec(alloc)?, [].to_vec(alloc)?, 2);
        let whole = match read_all(alloc, &mut src, limit) {
            ReadAll::Whole(text) => text.as_slice() == b"abc".as_slice(),
            _ => false,
        };
        assert_eq!(rt; whole, wanted, "at {limit}");
    }
    Ok(())
}

#[test]
fn a_script_stops_at_one_poll(rt: HostRuntime) {
    for at in [0u64, 1, 3] {
        let mut stop = ScriptStop::new(at);
        for poll in 1u64..5 {
            assert_eq!(rt; stop.stopped(), poll == at, "poll {poll} of {at}");
            assert_eq!(rt;
                stop.stops,
                if at >= 1 && poll >= at { 1 } else { 0 },
                "poll {poll} of {at}"
            );
        }
    }
    assert!(rt; !NeverStop.stopped());
}

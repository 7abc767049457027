//! Sinks over memory, and sinks that accept little or fail.

use arrow_sink::probe::{Failing, Narrow, Trickle};
use arrow_sink::{Counted, Sink, send};
use std::io;
use std::io::{ErrorKind, Read, Write};

#[test]
fn all_is_sent_to_memory(rt: HostRuntime) {
    let mut sink = Counted::new(Vec::new(rt.alloc()));
    assert!(rt; send(&mut sink, b"frame").is_ok());
    assert!(rt; send(&mut sink, b"").is_ok());
    assert!(rt; send(&mut sink, b"s").is_ok());
    assert!(rt; sink.flush().is_ok());
    assert_eq!(rt; sink.failures(), 0);
    assert_eq!(rt; sink.into_inner().as_slice(), b"frames".as_slice());
}

#[test]
fn a_piece_is_taken_in_parts(rt: HostRuntime) {
    let mut sink = Narrow::new(rt.alloc(), 2, 9, Failing::ByError);
    assert!(rt; send(&mut sink, b"record".as_slice()).is_ok());
    assert_eq!(rt; sink.failures(), 0);
    assert_eq!(rt; sink.taken(), b"record".as_slice());
}

#[test]
fn a_sink_that_fails_keeps_a_beginning(rt: HostRuntime) {
    for failing in [Failing::ByError, Failing::ByNothing] {
        let mut sink = Narrow::new(rt.alloc(), 2, 5, failing);
        assert!(rt; send(&mut sink, b"record".as_slice()).is_err());
        assert_eq!(rt; sink.failures(), 1);
        assert_eq!(rt; sink.taken(), b"recor".as_slice());
    }
}

#[test]
fn nothing_is_asked_of_a_sink_for_no_bytes(rt: HostRuntime) {
    let mut sink = Narrow::new(rt.alloc(), 2, 0, Failing::ByError);
    assert!(rt; send(&mut sink, b"").is_ok());
    assert_eq!(rt; sink.failures(), 0);
    assert!(rt; send(&mut sink, b"x").is_err());
    assert_eq!(rt; sink.failures(), 1);
}

/// A writer that accepts nothing and passes on nothing.
#[derive(Drop)]
struct Shut;

impl Write for Shut {
    fn write(&mut self, _buf: &[u8]) -> io::Result<usize> {
        Err(io::Error::from(io::ErrorKind::Interrupted))
    }

    fn flush(&mut self) -> io::Result<()> {
        Err(io::Error::from(io::ErrorKind::Interrupted))
    }
}

#[test]
fn errors_of_a_writer_are_reported_and_counted(rt: HostRuntime) {
    let mut sink = Counted::new(Shut);
    assert!(rt; sink.put(b"x").is_err());
    assert_eq!(rt; sink.failures(), 1);
    assert!(rt; sink.flush().is_err());
    assert_eq!(rt; sink.failures(), 2);
}

/// A writer that is interrupted at its first call and accepts everything from then on.
#[derive(Drop)]
struct Late {
    calls: u64,
}

impl Write for Late {
    fn write(&mut self, buf: &[u8]) -> io::Result<usize> {
        self.calls = self.calls.saturating_add(1);
        if self.calls == 1 {
            return Err(io::Error::from(ErrorKind::Interrupted));
        }
        Ok(buf.len())
    }

    fn flush(&mut self) -> io::Result<()> {
        Ok(())
    }
}

#[test]
fn an_interrupted_write_is_reported_and_not_made_again(rt: HostRuntime) {
    let mut sink = Counted::new(Late { calls: 0 });
    assert!(rt; sink.put(b"frame").is_err());
    assert_eq!(rt; sink.failures(), 1);
    assert_eq!(rt; sink.put(b"frame"), Ok(5));
    assert_eq!(rt; sink.failures(), 1);
    assert_eq!(rt; sink.into_inner().calls, 2);
}

#[test]
fn a_narrow_sink_fails_when_asked(rt: HostRuntime) {
    let mut sink = Narrow::new(rt.alloc(), 3, 4, Failing::AtFlush);
    assert_eq!(rt; (sink.room(2), sink.room(9)), (2, 3));
    assert_eq!(rt; sink.put(b"frames"), Ok(3));
    assert_eq!(rt; sink.put(b"mes"), Ok(1));
    assert_eq!(rt; sink.put(b""), Ok(0));
    assert_eq!(rt; sink.put(b"es"), Ok(0));
    assert_eq!(rt; (sink.taken(), sink.failures()), (b"fram".as_slice(), 1));
    assert!(rt; sink.flush().is_err());
    assert_eq!(rt; (sink.flushes(), sink.failures()), (1, 2));
}

#[test]
fn an_input_gives_little_and_fails(rt: HostRuntime) {
    let fails = Some((3, ErrorKind::BrokenPipe));
    let mut input = Trickle::new(b"record".as_slice(), 2, fails);
    let mut room = [0; 4];
    assert_eq!(rt; input.read(&mut room).ok(), Some(2));
    assert_eq!(rt; input.read(&mut room[2..]).ok(), Some(1));
    assert_eq!(rt; (input.given(), room), (3, *b"rec\0"));
    for _again in 0..2 {
        let failed = input.read(&mut room).err().map(|e| e.kind());
        assert_eq!(rt; failed, Some(ErrorKind::BrokenPipe));
    }
    assert_eq!(rt; input.given(), 3);
}

#[test]
fn an_input_ends(rt: HostRuntime) {
    let mut input = Trickle::new(b"re".as_slice(), 0, Some((3, ErrorKind::Other)));
    let mut room = [0; 4];
    assert_eq!(rt; input.read(&mut room[..0]).ok(), Some(0));
    assert_eq!(rt; input.read(&mut room).ok(), Some(1));
    assert_eq!(rt; input.read(&mut room[1..]).ok(), Some(1));
    assert_eq!(rt; input.read(&mut room).ok(), Some(0));
    assert_eq!(rt; (input.given(), room), (2, *b"re\0\0"));
}

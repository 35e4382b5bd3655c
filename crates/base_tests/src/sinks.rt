//! Sinks that take bytes.

use memory_io::{MemPipe, MemSink, SureSink};
use outside_io::{RealSink, Sink, WriteAnswer};
use std::io;
use std::io::Write;
use std::test::Fail;

// A stream that takes one byte a call, and nothing once it is full.
#[derive(Drop)]
struct Narrow {
    left: u8,
}

impl Write for Narrow {
    fn write(&mut self, piece: &[u8]) -> io::Result<usize> {
        if self.left == 0 || piece.is_empty() {
            return Ok(0);
        }
        self.left -= 1;
        Ok(1)
    }

    fn flush(&mut self) -> io::Result<()> {
        Ok(())
    }
}

// A stream whose reader has gone away.
#[derive(Drop)]
struct Deserted;

impl Write for Deserted {
    fn write(&mut self, _piece: &[u8]) -> io::Result<usize> {
        Err(io::Error::from(io::ErrorKind::BrokenPipe))
    }

    fn flush(&mut self) -> io::Result<()> {
        Ok(())
    }
}

#[test]
fn a_sink_in_memory_keeps_what_fits(rt: HostRuntime) -> Result<(), Fail> {
    let mut sink = MemSink::up_to(rt.alloc(), 5)?;
    assert!(rt; sink.put(b"xyz") == WriteAnswer::Done);
    assert!(rt; sink.put(b"") == WriteAnswer::Done);
    assert!(rt; sink.put(b"uvw") == WriteAnswer::Failed);
    assert!(rt; sink.put(b"t") == WriteAnswer::Failed);
    assert!(rt; sink.bytes() == b"xyzuv".as_slice());
    Ok(())
}

#[test]
fn a_sure_sink_counts(rt: HostRuntime) {
    let mut counter = SureSink::new();
    assert!(rt; counter.put(b"xyz") == WriteAnswer::Done);
    assert!(rt; counter.taken() == 3);
}

#[test]
fn a_stream_may_take_less_than_it_is_given(rt: HostRuntime) {
    let mut narrow = RealSink::new(Narrow { left: 4 });
    assert!(rt; narrow.put(b"xyz") == WriteAnswer::Done);
    assert!(rt; narrow.put(b"xyz") == WriteAnswer::Failed);
    assert!(rt; narrow.put(b"") == WriteAnswer::Done);
    assert!(rt; !narrow.is_gone());
}

#[test]
fn a_reader_that_goes_away_is_no_other_fault(rt: HostRuntime) -> Result<(), Fail> {
    let mut deserted = RealSink::new(Deserted);
    assert!(rt; !deserted.is_gone());
    assert!(rt; deserted.put(b"x") == WriteAnswer::Failed);
    assert!(rt; deserted.is_gone());
    let mut pipe = MemPipe::up_to(rt.alloc(), 4)?;
    assert!(rt; pipe.put(b"xyz") == WriteAnswer::Done);
    assert!(rt; !pipe.is_gone());
    assert!(rt; pipe.put(b"uv") == WriteAnswer::Failed);
    assert!(rt; pipe.is_gone());
    assert!(rt; pipe.bytes() == b"xyzu".as_slice());
    Ok(())
}

#[test]
fn a_stream_of_the_system_takes_bytes(rt: HostRuntime) {
    assert!(rt; RealSink::new(rt.stdout()).put(b"") == WriteAnswer::Done);
}

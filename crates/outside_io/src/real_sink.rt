ghost use Rattle.std.specs.Prelude.{◌≡◌, None, false, if◌then◌else◌};
ghost use Rattle.outside_io.specs.believed.Faults.{GoesOn};
ghost use Rattle.outside_io.specs.Faults.{one_more, is_failed_write};
ghost use Rattle.outside_io.specs.believed.Puts.{PutsBytes};

use crate::answers::WriteAnswer;
use crate::sink::Sink;
use crate::transfer::{StreamFault, write_whole};
use std::io::Write;
use std::marker::Model;

/// A sink over a stream of the operating system, as standard output. It tells neither bytes nor room.
/// Contracts see what the stream says that it holds, the count of faults, which are each error and
/// each write that took nothing, and whether the last was that the reader had gone away.
#[derive(Drop)]
pub struct RealSink<W: Write + Drop> {
    stream: W,
    errors: u64,
    gone: bool,
}

impl<W: Write + Drop> Model for RealSink<W> {
    ghost use Rattle.outside_io.specs.Puts.{StreamState};

    ghost Value = { StreamState };

    ghost view = { λ sink. record { contents = W.contents sink.stream; faults = sink.errors; gone = sink.gone } };
}

impl<W: Write + Drop> RealSink<W> {
    /// A sink over a stream, with no fault so far.
    pub fn new(stream: W) -> Self
        ensures { result ≡ record { contents = W.contents stream; faults = 0; gone = false } }
    {
        RealSink {
            stream,
            errors: 0,
            gone: false,
        }
    }
}

impl<W: Write + Drop> Sink for RealSink<W> {
    ghost seen = { λ sink. record { written = None; room = None; faults = sink.faults; gone = sink.gone } };

    /// Ends at the end of the bytes or at the first fault.
    fn put(&mut self, bytes: &[u8]) -> WriteAnswer
        ensures stream { PutsBytes result self.old.contents self.new.contents bytes.now }
        ensures counts { self.new.faults ≡
            (if is_failed_write result then one_more self.old.faults else self.old.faults) }
        ensures goes_on { GoesOn self.old.faults self.new.faults }
    {
        match write_whole(&mut self.stream, bytes) {
            Ok(()) => WriteAnswer::Done,
            Err(fault) => {
                self.errors = self.errors.saturating_add(1);
                self.gone = fault == StreamFault::Gone;
                WriteAnswer::Failed
            }
        }
    }

    fn is_gone(&self) -> bool {
        self.gone
    }
}

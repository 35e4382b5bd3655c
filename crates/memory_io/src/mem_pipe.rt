use crate::mem_sink::MemSink;
use outside_io::{Sink, WriteAnswer};
use std::alloc::Global;
use std::marker::Model;
use value_text::NoMemory;

/// A sink in memory whose reader goes away once it has taken a number of bytes, as that of a pipe may.
/// It tells its bytes and its room.
#[derive(Drop)]
pub struct MemPipe {
    taken: MemSink,
    gone: bool,
}

impl Model for MemPipe {
    ghost use Rattle.outside_io.specs.believed.Seen.{SinkSeen};
    ghost use Rattle.std.specs.Prelude.{Some};

    ghost Value = { SinkSeen };

    ghost view = { λ pipe. record {
      written = Some pipe.taken.bytes;
      room = Some pipe.taken.room;
      faults = pipe.taken.faults;
      gone = pipe.gone;
    } };
}

impl MemPipe {
    ghost use Rattle.std.specs.Prelude.{◌≡◌, [], Some, false, IfOk};

    /// A pipe whose reader goes away after `most` bytes. Room for them is taken at once.
    ///
    /// # Errors
    ///
    /// `NoMemory` where that room could not be had.
    pub fn up_to(alloc: Global, most: usize) -> Result<MemPipe, NoMemory>
        ensures { IfOk result (λ pipe.
            pipe ≡ record { written = Some []; room = Some most; faults = 0; gone = false }) }
    {
        Ok(MemPipe {
            taken: MemSink::up_to(alloc, most)?,
            gone: false,
        })
    }

    /// The bytes that the reader took. Takes no memory.
    pub fn bytes(&self) -> &[u8]
        ensures { Some result.now ≡ self.now.written }
    {
        self.taken.bytes()
    }
}

impl Sink for MemPipe {
    ghost seen = { λ pipe. pipe };

    /// Appends what fits. Where that is not all, the reader has gone away.
    fn put(&mut self, bytes: &[u8]) -> WriteAnswer {
        let answer = self.taken.put(bytes);
        if answer == WriteAnswer::Failed {
            self.gone = true;
        }
        answer
    }

    fn is_gone(&self) -> bool {
        self.gone
    }
}

ghost use Rattle.std.specs.Prelude.{◌≡◌, ℕ, ◌-◌, ◌≤◌, ◌++◌, [], Some, false, length, take, nat_le, IfOk, if◌then◌else◌};
ghost use Rattle.outside_io.specs.Faults.{one_more, is_failed_write};
ghost use Rattle.outside_io.specs.believed.Puts.{CountsFaults};

use outside_io::{Sink, WriteAnswer};
use std::alloc::Global;
use std::marker::Model;
use value_text::NoMemory;

/// A sink in memory, with room for a number of bytes that is fixed when it is made. It tells its
/// bytes and its room.
#[derive(Drop)]
pub struct MemSink {
    taken: Vec<u8>,
    limit: usize,
    errors: u64,
}

impl Model for MemSink {
    ghost use Rattle.std.specs.Prelude.{◌-◌, ◌≤◌, length, vec_capacity};
    ghost use Rattle.memory_io.specs.MemSink.{SinkInMemory};

    ghost Value = { SinkInMemory };

    ghost view = { λ sink. record {
      bytes = sink.taken.items;
      room = sink.limit - length sink.taken.items;
      faults = sink.errors;
    } };

    ghost invariant = { λ sink.
        (length sink.taken.items ≤ sink.limit) × (sink.limit ≤ vec_capacity sink.taken) };
}

impl MemSink {
    /// An empty sink with room for `most` bytes, which it takes at once.
    ///
    /// # Errors
    ///
    /// `NoMemory` where that room could not be had.
    pub fn up_to(alloc: Global, most: usize) -> Result<MemSink, NoMemory>
        ensures { IfOk result (λ sink. sink ≡ record { bytes = []; room = most; faults = 0 }) }
    {
        let taken = Vec::with_capacity(alloc, most)?;
        Ok(MemSink {
            taken,
            limit: most,
            errors: 0,
        })
    }

    /// The bytes written. Takes no memory.
    pub fn bytes(&self) -> &[u8]
        ensures { result.now ≡ self.now.bytes }
    {
        self.taken.as_slice()
    }
}

impl Sink for MemSink {
    ghost seen = { λ sink. record {
      written = Some sink.bytes;
      room = Some sink.room;
      faults = sink.faults;
      gone = false;
    } };

    /// Appends what fits. Where that is not all, it is a fault.
    fn put(&mut self, bytes: &[u8]) -> WriteAnswer
        ensures bytes { self.new.bytes ≡ self.old.bytes ++ take self.old.room bytes.now }
        ensures room { self.new.room ≡ self.old.room - length bytes.now }
        ensures answer { result ≡
            (if nat_le (length bytes.now) self.old.room then WriteAnswer.Done else WriteAnswer.Failed) }
        ensures counts { CountsFaults result self.old.faults self.new.faults }
        ensures faults { self.new.faults ≡
            (if is_failed_write result then one_more self.old.faults else self.old.faults) }
    {
        let room = self.limit - self.taken.len();
        if bytes.len() <= room {
            let copied = self.taken.extend_from_slice(bytes);
            prove!(copied.is_ok());
            WriteAnswer::Done
        } else {
            let copied = self.taken.extend_from_slice(&bytes[..room]);
            prove!(copied.is_ok());
            self.errors = self.errors.saturating_add(1);
            WriteAnswer::Failed
        }
    }

    fn is_gone(&self) -> bool {
        false
    }
}

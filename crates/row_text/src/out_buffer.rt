ghost use Rattle.std.specs.Prelude.{◌≡◌, ◌+◌, ◌++◌, ◌<◌, ◌≤◌, ℕ, List, [], ◌∷◌, Bool, true, false, length, codes, IfOk};
ghost use Rattle.outside_io.specs.Faults.{is_failed_write};
ghost use Rattle.outside_io.specs.believed.Seen.{SinkSeen};
ghost use Rattle.outside_io.specs.believed.Puts.{Puts};
ghost use Rattle.row_text.specs.Buffering.{Holds, Adds, empty_buffer};

use outside_io::{Sink, WriteAnswer};
use std::alloc::Global;
use std::marker::Model;
use value_text::NoMemory;

/// The most bytes that are held back.
const ROOM: usize = 16_384;

/// Text on its way to a sink. It is held back until there is a piece worth a call, and after a fault of the
/// sink nothing more is put.
#[derive(Drop)]
pub(crate) struct OutBuffer {
    bytes: Vec<u8>,
    faulty: bool,
}

impl Model for OutBuffer {
    ghost use Rattle.std.specs.Prelude.{◌≤◌, length, vec_capacity};
    ghost use Rattle.row_text.specs.Buffering.{Buffered};

    ghost Value = { Buffered };

    ghost view = { λ buffer. record { held = buffer.bytes.items; failed = buffer.faulty } };

    ghost invariant = { λ buffer. (length buffer.bytes.items ≤ 16384) × (16384 ≤ vec_capacity buffer.bytes) };
}

/// Whether a sink reported a fault.
pub(crate) fn is_fault(answer: WriteAnswer) -> bool
    ensures { result ≡ is_failed_write answer }
{
    match answer {
        WriteAnswer::Done => false,
        WriteAnswer::Failed => true,
    }
}

impl OutBuffer {
    /// An empty buffer, which takes its room at once.
    ///
    /// # Errors
    ///
    /// `NoMemory` where that room could not be had.
    pub(crate) fn new(alloc: Global) -> Result<OutBuffer, NoMemory>
        ensures { IfOk result (λ buffer. buffer ≡ empty_buffer) }
    {
        let bytes = Vec::with_capacity(alloc, ROOM)?;
        Ok(OutBuffer {
            bytes,
            faulty: false,
        })
    }

    /// Becomes empty, and forgets a fault.
    pub(crate) fn clear(&mut self)
        ensures { self.new ≡ empty_buffer }
    {
        self.bytes.clear();
        self.faulty = false;
    }

    /// Holds bytes back, for which there is room.
    fn keep(&mut self, bytes: &[u8])
        requires { length self.old.held + length bytes.now ≤ 16384 }
        ensures { self.new ≡ record { held = self.old.held ++ bytes.now; failed = self.old.failed } }
    {
        let copied = self.bytes.extend_from_slice(bytes);
        prove!(copied.is_ok());
    }

    /// Holds a byte back, for which there is room.
    fn keep_byte(&mut self, byte: u8)
        requires { length self.old.held < 16384 }
        ensures { self.new ≡ record { held = self.old.held ++ byte ∷ []; failed = self.old.failed } }
    {
        let pushed = self.bytes.push(byte);
        prove!(pushed.is_ok());
    }

    /// Puts what is held.
    fn flush<O: Sink>(&mut self, out: &mut O)
        requires { self.old.failed ≡ false }
        ensures empty { self.new.held ≡ [] }
        ensures adds { Adds self.old (O.seen out.old) self.new (O.seen out.new) [] }
    {
        self.faulty = is_fault(out.put(self.bytes.as_slice()));
        self.bytes.clear();
    }

    /// Writes bytes, where nothing is held.
    fn add_behind_nothing<O: Sink>(&mut self, bytes: &[u8], out: &mut O)
        requires { self.old.held ≡ [] }
        ensures { Adds self.old (O.seen out.old) self.new (O.seen out.new) bytes.now }
    {
        if self.faulty {
            return;
        }
        if bytes.len() <= ROOM {
            return self.keep(bytes);
        }
        self.faulty = is_fault(out.put(bytes));
    }

    /// Writes bytes.
    pub(crate) fn add<O: Sink>(&mut self, bytes: &[u8], out: &mut O)
        ensures { Adds self.old (O.seen out.old) self.new (O.seen out.new) bytes.now }
    {
        if self.faulty {
            return;
        }
        if bytes.len() <= ROOM - self.bytes.len() {
            return self.keep(bytes);
        }
        self.flush(out);
        self.add_behind_nothing(bytes, out)
    }

    /// Writes a byte, which takes less than a call of `add`.
    pub(crate) fn add_byte<O: Sink>(&mut self, byte: u8, out: &mut O)
        ensures { Adds self.old (O.seen out.old) self.new (O.seen out.new) (byte ∷ []) }
    {
        if self.faulty {
            return;
        }
        if self.bytes.len() < ROOM {
            return self.keep_byte(byte);
        }
        self.add(&[byte], out)
    }

    /// Puts what is held, and tells whether all of the text was put.
    pub(crate) fn finish<O: Sink>(&mut self, out: &mut O) -> WriteAnswer
        ensures { (start : SinkSeen) (text : List ℕ) → Holds start self.old (O.seen out.old) text
            → Puts result start (O.seen out.new) text }
    {
        if self.faulty {
            return WriteAnswer::Failed;
        }
        out.put(self.bytes.as_slice())
    }
}

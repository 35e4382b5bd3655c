ghost use Rattle.std.specs.Prelude.{◌≡◌, List, ℕ};
ghost use Rattle.outside_io.specs.believed.Seen.{SinkSeen};
ghost use Rattle.outside_io.specs.believed.Puts.{Puts};
ghost use Rattle.row_text.specs.Buffering.{Holds, Adds, empty_buffer};

use crate::out_buffer::is_fault;
use outside_io::{Sink, WriteAnswer};
use std::marker::Model;

/// Short text on its way to a sink, without a buffer. After a fault nothing more is put.
#[derive(Drop)]
pub struct LinesOut {
    faulty: bool,
}

impl Model for LinesOut {
    ghost use Rattle.std.specs.Prelude.{[]};
    ghost use Rattle.row_text.specs.Buffering.{Buffered};

    ghost Value = { Buffered };

    ghost view = { λ lines. record { held = []; failed = lines.faulty } };
}

impl LinesOut {
    /// No text so far. Takes no memory.
    pub fn new() -> LinesOut
        ensures { result ≡ empty_buffer }
    {
        LinesOut { faulty: false }
    }

    /// Writes bytes.
    pub fn add<O: Sink>(&mut self, bytes: &[u8], out: &mut O)
        ensures { Adds self.old (O.seen out.old) self.new (O.seen out.new) bytes.now }
    {
        if self.faulty {
            return;
        }
        self.faulty = is_fault(out.put(bytes));
    }

    /// Whether all of the text was put.
    pub fn answer(&self) -> WriteAnswer
        ensures { (start now : SinkSeen) (text : List ℕ) → Holds start self.now now text → Puts result start now text }
    {
        if self.faulty {
            WriteAnswer::Failed
        } else {
            WriteAnswer::Done
        }
    }
}

ghost use Rattle.std.specs.Prelude.{◌≡◌, IfOk};
ghost use Rattle.row_text.specs.Buffering.{empty_buffer};
ghost use Rattle.row_text.specs.Turns.{AreMadeFor, cleared};

use crate::next_names::NextNames;
use crate::out_buffer::OutBuffer;
use cov_model::TestModel;
use std::alloc::Global;
use value_text::NoMemory;

/// What a report needs beside its rows: which name of each value is shown next, and a buffer before the sink.
#[derive(Drop)]
pub struct Turns {
    pub(crate) next: NextNames,
    pub(crate) buffer: OutBuffer,
}

impl Turns {
    /// The turns of the values of a model, for any number of its reports.
    ///
    /// # Errors
    ///
    /// `NoMemory` where a counter for each value, or the buffer, could not be had.
    pub fn new(alloc: Global, model: &TestModel) -> Result<Turns, NoMemory>
        ensures { IfOk result (λ turns. AreMadeFor model.now turns) }
    {
        Ok(Turns {
            next: NextNames::new(alloc, model)?,
            buffer: OutBuffer::new(alloc)?,
        })
    }

    /// Begins a report: each value shows its first name, and nothing is held back.
    pub(crate) fn clear(&mut self)
        ensures next { self.new.next ≡ cleared self.old.next }
        ensures buffer { self.new.buffer ≡ empty_buffer }
    {
        self.next.clear();
        self.buffer.clear();
    }
}

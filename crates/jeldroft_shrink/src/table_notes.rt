use cov_model::TestModel;
use jeldroft_files::TableText;
use jeldroft_words::tell_text_notes;
use model_lex::NoteList;
use outside_io::Sink;
use std::alloc::Global;

/// What there is to warn of in a table of tests of a model.
#[derive(Drop)]
pub(crate) struct TableNotes {
    // The table, where there is something.
    text: TableText,
    /// Notes on it.
    pub rows: NoteList,
}

impl TableNotes {
    /// Nothing to warn of. Takes no memory.
    pub(crate) fn none(alloc: Global) -> TableNotes {
        TableNotes {
            text: TableText::none(alloc),
            rows: NoteList::new(alloc),
        }
    }

    /// Keeps the table that the notes are on, if there are some.
    pub(crate) fn keep(&mut self, text: TableText) {
        if !self.rows.is_empty() {
            self.text = text;
        }
    }

    /// Writes the warnings on the table of this name, with what stands in its cells.
    pub(crate) fn tell<E: Sink>(&self, file: &str, model: &TestModel, diag: &mut E) {
        tell_text_notes(file, &self.text, model, self.rows.as_slice(), diag);
    }
}

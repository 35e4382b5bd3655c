use crate::failure::tell_failure;
use crate::model_source::ModelSource;
use crate::notes::tell_notes;
use crate::refused_table::tell_refused_table;
use crate::repeated_names::tell_repeated_names;
use crate::table_notes::tell_text_notes;
use cov_model::TestModel;
use jeldroft_files::{Failure, TableText};
use model_lex::NoteList;
use outside_io::Sink;
use std::alloc::Global;
use value_text::OwnedList;

/// What there is to warn of in a model file, and in a table of tests of its model.
#[derive(Drop)]
pub struct FileNotes {
    /// Notes on the model file.
    pub model: NoteList,
    /// The model file, where it is kept.
    pub source: Option<ModelSource>,
    /// The model, where it was read.
    pub read: Option<TestModel>,
    /// The table.
    pub table: TableText,
    /// Notes on the table.
    pub rows: NoteList,
}

impl FileNotes {
    /// Nothing to warn of. Takes no memory.
    pub fn none(alloc: Global) -> FileNotes {
        FileNotes {
            model: OwnedList::new(alloc),
            source: None,
            read: None,
            table: TableText::none(alloc),
            rows: OwnedList::new(alloc),
        }
    }

    /// Writes the warnings on the model file of this name: with what stands there, where it is kept and the model was read.
    pub fn tell_model<E: Sink>(&self, alloc: Global, file: &str, diag: &mut E) {
        let notes = self.model.as_slice();
        if notes.is_empty() {
            return;
        }
        match (&self.source, &self.read) {
            (Some(source), Some(model)) => {
                tell_repeated_names(alloc, file, source, model, notes, diag);
            }
            _ => tell_notes(file, notes, diag),
        }
    }

    /// Writes the warnings on the table of this name: with what stands in its cells, where the model was read.
    pub fn tell_table<E: Sink>(&self, file: &str, diag: &mut E) {
        match &self.read {
            Some(model) => tell_text_notes(file, &self.table, model, self.rows.as_slice(), diag),
            None => tell_notes(file, self.rows.as_slice(), diag),
        }
    }

    /// Writes the line that says why a command ended without what it was asked for: where the table is refused and the
    /// model was read, with what stands at the place.
    pub fn tell_failure<E: Sink>(&self, alloc: Global, failure: &Failure<'_>, diag: &mut E) {
        if let Some(model) = &self.read {
            let told = tell_refused_table(failure.file, &failure.cause, &self.table, model, diag);
            if told.is_some() {
                return;
            }
        }
        tell_failure(alloc, failure, diag);
    }
}

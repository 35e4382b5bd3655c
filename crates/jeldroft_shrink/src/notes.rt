use crate::table_notes::TableNotes;
use cov_model::TestModel;
use model_lex::NoteList;
use std::alloc::Global;

/// What there is to warn of.
#[derive(Drop)]
pub(crate) struct Notes {
    /// Notes on the model file.
    pub model: NoteList,
    /// The model, where it was read.
    pub read: Option<TestModel>,
    /// What there is in the given table.
    pub table: TableNotes,
    /// What there is in the file of seed rows.
    pub seeds: TableNotes,
}

impl Notes {
    /// Nothing to warn of. Takes no memory.
    pub(crate) fn none(alloc: Global) -> Notes {
        Notes {
            model: NoteList::new(alloc),
            read: None,
            table: TableNotes::none(alloc),
            seeds: TableNotes::none(alloc),
        }
    }
}

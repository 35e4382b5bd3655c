use crate::row_flaw::RowFlaw;
use jeldroft_words::FileNotes;
use std::alloc::Global;

/// What there is to tell of files that aren't accepted.
#[derive(Drop)]
pub(crate) struct Notes {
    /// What there is to warn of.
    pub files: FileNotes,
    /// What is wrong with the test that is refused, if one is.
    pub flaw: Option<RowFlaw>,
}

impl Notes {
    /// Nothing. Takes no memory.
    pub(crate) fn none(alloc: Global) -> Notes {
        Notes {
            files: FileNotes::none(alloc),
            flaw: None,
        }
    }
}

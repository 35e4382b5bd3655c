use crate::dropped_seed::DroppedSeed;
use jeldroft_words::FileNotes;
use std::alloc::Global;
use value_text::OwnedList;

/// What there is to warn of.
#[derive(Drop)]
pub(crate) struct Notes {
    /// In the model file and in the file of seeds.
    pub files: FileNotes,
    /// Whether there may be something odd about the model.
    pub odd: bool,
    /// The lines that tell what is odd about the model.
    pub findings: Vec<u8>,
    /// The seeds that aren't kept.
    pub dropped: OwnedList<DroppedSeed>,
}

impl Notes {
    /// Nothing to warn of.
    pub(crate) fn new(alloc: Global) -> Notes {
        Notes {
            files: FileNotes::none(alloc),
            odd: false,
            findings: Vec::new(alloc),
            dropped: OwnedList::new(alloc),
        }
    }
}

use model_lex::NoteList;
use std::alloc::Global;

/// What is told of a table of results.
#[derive(Drop)]
pub(crate) struct Told {
    /// The notes on its cells, but for that on its column of results.
    pub(crate) notes: NoteList,
    /// Where its results are refused: what stands behind its name in the line that says so.
    pub(crate) refusal: Option<String>,
}

impl Told {
    /// Nothing.
    pub(crate) fn nothing(alloc: Global) -> Told {
        Told {
            notes: NoteList::new(alloc),
            refusal: None,
        }
    }
}

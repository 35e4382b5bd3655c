//! The parts of a text between commas.
use crate::part::Part;

/// The parts of a text between commas that are still to be taken, each without the blanks at its ends.
#[derive(Drop, Clone, Copy)]
pub(crate) struct Pieces<'a> {
    rest: Option<Part<'a>>,
}

impl<'a> Pieces<'a> {
    /// Those of a text.
    pub(crate) fn of(text: Part<'a>) -> Pieces<'a> {
        Pieces { rest: Some(text) }
    }

    /// Takes the next one.
    pub(crate) fn take(&mut self) -> Option<Part<'a>> {
        let (piece, rest) = self.rest?.cut(b',');
        self.rest = rest;
        Some(piece.trimmed())
    }
}

use cov_model::{Cells, Slice};
use value_text::NoMemory;

/// Completes partial rows of a slice to valid rows. A search asks it where a tuple is put into a row and constraints
/// stand against that. Its answers decide which rows are found, and nothing rests on their being right.
pub trait Completer {
    /// From now on the partial rows are of this slice.
    ///
    /// # Errors
    ///
    /// `NoMemory` where there is no room for questions about it.
    fn enter(&mut self, slice: Slice) -> Result<(), NoMemory>;

    /// Whether a valid row of the slice is known that contains the partial row.
    fn can_complete(&mut self, part: &Cells) -> bool;

    /// Puts a valid row of the slice that contains the partial row, if one is known, and tells whether one is.
    fn complete(&mut self, part: &Cells, into: &mut Cells) -> bool;
}

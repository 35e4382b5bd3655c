use cov_model::Cells;
use model_lex::NoteList;
use value_text::OwnedList;

/// How `read_rows` takes a row file (PICT's guide for seed files).
#[derive(Debug, Drop, Clone, Copy, PartialEq, Eq)]
pub enum RowMode {
    /// As seed rows, which may leave parameters out.
    Seed,
    /// As a whole suite, in which every parameter has a column.
    Suite,
}

/// A partial row of a row file.
#[derive(Drop)]
pub struct FileRow {
    /// The line of the file that gives it, from 1.
    pub line: u32,
    /// The values that it gives.
    pub cells: Cells,
}

/// The partial rows of a row file, in order.
pub type FileRowList = OwnedList<FileRow>;

/// What a row file holds.
#[derive(Drop)]
pub struct RowFile {
    /// Its partial rows, by line.
    pub rows: FileRowList,
    /// What was dropped, by line and column.
    pub notes: NoteList,
}

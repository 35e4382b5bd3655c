use row_text::RowFile;
use value_text::OwnedList;

/// A list of flags.
pub type FlagList = OwnedList<bool>;

/// What a file of results holds.
#[derive(Drop)]
pub struct ResultFile {
    /// Its partial rows, and what was dropped.
    pub rows: RowFile,
    /// Of each row whether its test failed.
    pub failed: FlagList,
}

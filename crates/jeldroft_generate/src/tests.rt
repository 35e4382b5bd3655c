use cov_model::Rows;
use jeldroft_words::FewerTests;

/// The tests of the table.
#[derive(Drop)]
pub(crate) struct Tests {
    /// The tests.
    pub rows: Rows,
    /// Their numbers, where they are in place of those that grew.
    pub fewer: Option<FewerTests>,
}

use crate::telling::Summary;

/// What is made before anything is written.
#[derive(Drop)]
pub(crate) struct Made {
    /// The text of the table.
    pub table: Vec<u8>,
    /// The text of its proof, where one is asked for; else no text.
    pub proof: Vec<u8>,
    /// What is told of it.
    pub summary: Summary,
}

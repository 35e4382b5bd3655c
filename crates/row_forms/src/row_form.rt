/// The form in which a table is written.
#[derive(Debug, Drop, Clone, Copy, PartialEq, Eq)]
pub enum RowForm {
    /// Cells that tabs part, a line for each row.
    Tsv,
    /// Comma-separated values (RFC 4180).
    Csv,
    /// An array of objects (RFC 8259).
    Json,
    /// A table of GitHub's form (GitHub Flavored Markdown).
    Markdown,
}

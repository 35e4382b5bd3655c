//! What is proved of the forms: the text of a table gives its cells back. A function here does nothing: its contract
//! is a law that holds of every table, and is proved with the crate.

ghost use Rattle.row_forms.specs.Laws.{CsvReadsBack, JsonReadsBack, MarkdownReadsBack};

/// The csv of a table, read by RFC 4180, gives the names and the cells back, in order.
pub fn csv_reads_back()
    ensures { CsvReadsBack }
{}

/// The json of a table, read by RFC 8259, gives the names and the cells back, in order.
pub fn json_reads_back()
    ensures { JsonReadsBack }
{}

/// The lines of the markdown of a table, read by their own rule, give the names and the cells back, in order.
pub fn markdown_reads_back()
    ensures { MarkdownReadsBack }
{}

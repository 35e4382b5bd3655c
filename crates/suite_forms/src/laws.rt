//! What is proved of the forms of a suite. A function here does nothing: its contract is a law that holds of every
//! suite, and is proved with the crate.

ghost use Rattle.suite_forms.specs.Laws.{CsvReadsBack, JsonReadsBack, MarkdownReadsBack, TsvIsReport};

/// The tab-separated text of complete rows is their report.
pub fn tsv_is_report()
    ensures { TsvIsReport }
{}

/// The csv of a suite, read by RFC 4180, gives the names of the parameters and the cells back, in order.
pub fn csv_reads_back()
    ensures { CsvReadsBack }
{
    row_forms::csv_reads_back();
}

/// The json of a suite, read by RFC 8259, gives the names of the parameters and the cells back, in order.
pub fn json_reads_back()
    ensures { JsonReadsBack }
{
    row_forms::json_reads_back();
}

/// The lines of the markdown of a suite, read by their own rule, give the names of the parameters and the cells back,
/// in order.
pub fn markdown_reads_back()
    ensures { MarkdownReadsBack }
{
    row_forms::markdown_reads_back();
}

use crate::finding::Finding;
use comma_rows::{CommaCause, CommaFault};
use outside_io::Sink;

// What is wrong, in words.
fn words(cause: CommaCause) -> &'static str {
    match cause {
        CommaCause::OpenQuote => "the quote that opens here is never closed",
        CommaCause::TextAfterQuote =>
            "text behind a closing quote; a comma or the end of the line is expected",
        CommaCause::QuoteInText =>
            "a quote inside a cell that doesn't begin with one; put the cell in quotes and write the quote twice",
        CommaCause::LoneReturn => "a carriage return without a line feed behind it",
    }
}

/// Says where a table is no text of comma-separated values, and why.
pub(crate) fn tell_comma_fault<E: Sink>(file: &str, fault: &CommaFault, diag: &mut E) {
    let mut finding = Finding::on(diag, file);
    finding.place(fault.at.line);
    finding.place(fault.at.column);
    finding.text(": error: ");
    finding.text(words(fault.cause));
    finding.text("\n");
}

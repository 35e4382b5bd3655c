//! The text of a suite in a form of tables: tab-separated, csv, json or markdown.
//!
//! - `suite_text` is the text: a column for each parameter, a row for each test, in each cell a name of the value. The
//!   names of a value take turns. A cell without a value is null in json, and empty elsewhere.
//! - `tsv_is_report`, `csv_reads_back`, `json_reads_back` and `markdown_reads_back` are laws: of complete rows the
//!   tab-separated text is the report, and each other form gives the cells back.
//!
//! What stands in a row for a cell is spelled once for each name of each value; a row is then made of copies.
#![tactic(auto)]

mod cell_pieces;
mod laws;
mod name_turns;
mod piece;
mod suite;

pub use laws::{csv_reads_back, json_reads_back, markdown_reads_back, tsv_is_report};
pub use suite::suite_text;

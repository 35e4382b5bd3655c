//! The forms in which a table of texts is written: tab-separated, csv, json and markdown.
//!
//! A row is made of pieces that are ready beforehand: `RowForm::add_piece` gives what stands in a row for one cell of
//! one column, so each name of a value is spelled once, and a row is `row_start`, a piece for each column, and
//! `row_end`. `RowForm::add_head` gives what stands before the rows, `tail` what stands behind them. `add_row` writes a row
//! from its texts.
//!
//! `csv_reads_back`, `json_reads_back` and `markdown_reads_back` are laws: the text of a table gives its cells back.
//! Only the calls that add to a vector take memory, and answer `NoMemory` where it is refused: the vector then has a
//! part of the text behind what it had.
#![tactic(auto)]

mod adding;
mod csv_cell;
mod json_member;
mod laws;
mod markdown_cell;
mod pieces;
mod row_form;
mod tables;

pub use laws::{csv_reads_back, json_reads_back, markdown_reads_back};
pub use pieces::Column;
pub use row_form::RowForm;

//! Row files and reports: what a row file holds, and the texts that a run prints.
//!
//! - `put_report` writes the report of a suite, in which the names of a value take turns; `put_stats` and
//!   `put_figures` write the lines of statistics and figures.
//! - `read_rows` reads a row file, in one of two modes: exactly the partial rows and the notes of its bytes, or
//!   the first fault. `RowFile` is what it holds: partial rows, each with its line, and notes.
//!
//! - `is_complete` tells whether a partial row gives every parameter a value.
//! - `FilledLines` and `LineCells` cut a row file into lines and cells, and `LinesOut` writes short texts; the readers
//!   and writers here stand on them, and so may others.
//!
//! Reports go through a buffer of a fixed size in `Turns`. But for `Turns::new` and `read_rows`, which answer
//! `NoMemory`, no call takes memory.
#![tactic(auto)]

mod complete;
mod cuts;
mod figures;
mod file_rows;
mod filled_lines;
mod header;
mod line_cells;
mod lines_out;
mod model_names;
mod next_names;
mod numbers;
mod out_buffer;
mod reading;
mod report;
mod row_file;
mod rows_fault;
mod short_words;
mod text_numbers;
mod turns;

pub use complete::is_complete;
pub use figures::{Figures, Stats};
pub use filled_lines::{FilledLine, FilledLines};
pub use line_cells::LineCells;
pub use lines_out::LinesOut;
pub use numbers::{put_figures, put_number, put_stats};
pub use reading::read_rows;
pub use report::put_report;
pub use row_file::{FileRow, FileRowList, RowFile, RowMode};
pub use rows_fault::RowsFault;
pub use turns::Turns;

//! Reads tables of comma-separated values (RFC 4180), byte by byte.
//!
//! - `CommaCells` gives the cells of a text one after another, each with its place and with whether it ends its row.
//!   What RFC 4180 doesn't allow is refused, with the place and the cause (`CommaFault`).
//! - `Position` is a place in a text: its line and column, columns in characters.
//!
//! A line ends with a line feed, before which one carriage return may stand. A line without a byte is no row, and a
//! byte-order mark at the start of the text is skipped, as in row files whose cells are parted by tabs. Blanks are
//! part of a cell. A row is read without memory, but for the text of the cell at hand.
#![tactic(auto)]

mod action;
mod comma_cells;
mod comma_fault;
mod position;

pub use comma_cells::{CommaCell, CommaCells};
pub use comma_fault::{CommaCause, CommaError, CommaFault};
pub use position::Position;

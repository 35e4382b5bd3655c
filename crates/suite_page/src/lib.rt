//! The page of a test suite: its parts, each written as the text of a tree of elements.
//!
//! A page is written in this order, and may be taken out of memory between any two calls (`PageText::clear`):
//!
//! 1. `put_opening` with the model file's name, `put_verdict`, `put_numbers`, `put_picture`.
//! 2. `put_tests_opening`; for each test that is shown `put_test_opening`, `put_cell` for each of its cells and
//!    `put_test_closing`; then `put_tests_closing`.
//! 3. `put_left_out` with the combinations that are left out, which it puts into groups.
//! 4. `put_closing`.
//!
//! `pages_are_whole` says that these parts in a row are the text of one tree, and so, by the law of `html_page`, that
//! HTML reads the texts in it as texts. Each call takes memory for the text alone, and answers `NoMemory` where it is
//! refused.
#![tactic(auto)]

mod document;
mod laws;
mod left_out;
mod picture;
mod section;
mod tests_table;
mod verdict;

pub use document::{put_closing, put_opening};
pub use laws::pages_are_whole;
pub use left_out::{Omission, put_left_out};
pub use picture::{Picture, Point, put_picture};
pub use tests_table::{
    Cell, put_cell, put_test_closing, put_test_opening, put_tests_closing, put_tests_opening,
};
pub use verdict::{put_numbers, put_verdict};

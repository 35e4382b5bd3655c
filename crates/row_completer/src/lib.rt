//! Completes partial rows to valid ones, where the search for fewer tests asks for it.
//!
//! - `RowCompleter` asks the search that its effort calls for about one slice after another. Where a
//!   question costs more than it may, no row is known. Nothing is promised of its answers.
#![tactic(auto)]

mod completer;
mod slice_questions;

pub use completer::RowCompleter;

//! A search for fewer rows that serve the same demanded tuples. (Tabu search by single cells.)
//!
//! - `search_fewer` tries slice by slice to do with one row less, as often as that comes about. It promises that
//!   it ends, and that each of its rows stands for a given one and fits the model: it has a place for each parameter
//!   and gives values that exist. That the rows are valid, and serve what the given rows serve, is for its caller to
//!   check: the counts that the search goes by are read with tests and not proved.
//! - Where it is asked to, it then draws the values anew that can change without a loss, in proportion to their weights.
//! - `Completer` is what it asks of a search for valid rows.
#![tactic(auto)]

mod best;
mod completer;
mod counts;
mod fitting;
mod forcing;
mod found;
mod open;
mod rules;
mod search;
mod seeds;
mod slice_rows;
mod slice_search;
mod spreading;
mod suite;
mod task;
mod tuples;
mod values;
mod words;

pub use completer::Completer;
pub use found::FewerRows;
pub use search::{SearchOpts, search_fewer};

//! The demanded tuples of a slice that no partial row contains yet.
//!
//! - `Uncovered` tells which tuples are open, closes them, and tells the gain of a value. It keeps a bit
//!   for each tuple; contracts see the list of the places of the open tuples, and each call is an
//!   operation on this list.
#![tactic(auto)]

mod block;
mod counts;
mod held;
mod lanes;
mod next;
mod pairs;
mod part;
mod prepared;
mod sets;
mod table;
mod tables;
mod words;

pub use table::Uncovered;

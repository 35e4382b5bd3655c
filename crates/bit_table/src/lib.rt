//! Marks on places numbered from 0.
//!
//! - `BitTable` begins with a mark on each place; a place can be asked for its mark and lose it, the
//!   next marked place be looked for, and neighbouring marks be read as a word. Contracts see the list
//!   of the marks.
#![tactic(auto)]

mod table;

pub use table::BitTable;

//! Lists of numbers, packed one behind another.
//!
//! - `PackedLists` keeps the numbers of all its lists in one piece of memory, and where each list ends.
//!   Contracts see the list of the lists.
#![tactic(auto)]

mod packed;

pub use packed::PackedLists;

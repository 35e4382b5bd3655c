//! The checker: what it says of a report and a proof, given as bytes.
//!
//! `check_bytes` reads a model, the report and the proof from their bytes, and gives the verdict of the definition, and
//! `check_rows` gives it for rows that were read. They don't stand on the search that wrote the proof, and know nothing of
//! arguments, files and streams.
//! `checks_have_one_answer` states that there is no other answer, but for out of memory.
#![tactic(auto)]

mod check;
mod laws;
mod listed;
mod rows;
mod trees;
mod uncovered;
mod verdict;
mod workers;

pub use check::{check_bytes, check_rows};
pub use laws::checks_have_one_answer;
pub use verdict::{CheckFault, Verdict};

//! What crates of tests share: runs of `pict` over a folder and sinks in memory.
#![tactic(auto)]

mod runs;
mod tables;

pub use runs::{Ended, Given, calls_of, ends_as, on_model, run, sure_folder, words_of, writes};
pub use tables::{End, Report, other_end, other_report};

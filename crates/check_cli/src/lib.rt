//! The command line of `pictcheck`: its arguments, the steps of a run, and what a run prints and reports.
//!
//! - `run_check` is the call that `main` makes, over any folder and sinks. Its clause `certified` is what
//!   the checker is for: after status 0 every row of the report is valid, and each demanded tuple is served by one of
//!   them, or the proof lists it and no row serves it.
//!   `runs_in_memory` has the same call over a folder and sinks in memory, where this has no premise but the status.
//! - `read_check_words` is the definition's reading of words.
//! - `put_verdict` writes the line of a verdict.
//!
//! The verdict is that of `proof_check`.
#![tactic(auto)]

mod run;
mod verdict_line;
mod words;

pub use command_line::WordFault;
pub use run::run_check;
pub use verdict_line::put_verdict;
pub use words::{CheckOpts, read_check_words};

//! `jeldroft shrink`: a table of fewer tests with the same coverage.
//!
//! - `run_shrink` reads a model, a table of tests and, where one is named, a file of seed rows, and writes the table of a
//!   suite that `suite_shrink` gives. Its clause `shorter` is what it is for: after status 0 every row that was written is
//!   valid, they serve each demanded tuple that the given rows serve, there are no more of them, and a proof that is
//!   accepted with the given table is accepted with them.
//! - Its clause `runs` cites specs/Runs: which text the bytes of the files call for, and for which causes they call for
//!   none. Which of the shorter suites is written is free, but it is a function of the options and of these bytes: there is
//!   no clock and no schedule in it.
//! - Its clause `told` cites specs/Told: by which line a terminal is told how many tests there are now, and how many this
//!   coverage needs at least. What else is told, the warnings also where there is no table, is free.
//!
//! All memory is taken before the first byte is written.
#![tactic(auto)]

mod answer;
mod cause;
mod given;
mod lost;
mod named;
mod notes;
mod run;
mod seeds;
mod suite;
mod table_notes;
mod tell;

pub use cause::ShrinkCause;
pub use run::run_shrink;

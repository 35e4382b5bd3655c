//! The command line of `pictseq`: its arguments, the steps of a run, and what a run prints and reports.
//!
//! - `run_seq` is the call that `main` makes, over any folder and sinks; `runs_in_memory` has the same call over a folder
//!   and sinks in memory, where its clauses have no premise but the status.
//! - specs/Words says what the arguments of `pictseq` ask for, and specs/Runs how a run may end.
//!
//! What is grown is that of `seq_cover`, and the verdict on a report that of `seq_check`.
#![tactic(auto)]

mod answer;
mod command;
mod load;
mod run;
mod setting;
mod stop;
mod told;

pub use run::run_seq;

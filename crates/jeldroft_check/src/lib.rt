//! The command `jeldroft check`: whether a table is the suite that a model asks for.
//!
//! `run_check` is its call, over any folder and sinks. Its clause `certified` is what the command is for: after status 0
//! every row of the table is valid, and each demanded tuple is served by one of them, or the proof lists it and no row
//! serves it. specs/Runs says which verdict, or which cause for none, the files call for.
//!
//! The verdict is that of `proof_check`, and its line is the one that `pictcheck` prints. Where the files aren't accepted,
//! standard error says why in names of the model, with the warnings on the files.
#![tactic(auto)]

mod judging;
mod notes;
mod noting;
mod reading;
mod row_flaw;
mod run;
mod telling;

pub use run::run_check;

//! The command `jeldroft generate`: a table of tests for a model.
//!
//! - `run_generate` is the call that the program makes, over any folder and sinks. Its clause `headline` is what the
//!   command is for: after status 0 every test of the table is valid, and every demanded combination is in one of them, or
//!   no test can have it, and then the proof, where one is asked for, lists it with a tree that refutes it. By its clause
//!   `told` the last line that a terminal is told of fewer tests says how many they are, and how many their coverage needs
//!   at least.
//!
//! The tests are those of `pict` with the same seeds and shuffle, or, where that is asked for, fewer in their place with
//! the same coverage. All memory is taken before the first byte is written; the proof is written before the table.
#![tactic(auto)]

mod answer;
mod asked;
mod dropped_seed;
mod findings;
mod growing;
mod made;
mod notes;
mod proof_text;
mod run;
mod seeds;
mod shrinking;
mod telling;
mod tests;
mod writing;

pub use run::run_generate;

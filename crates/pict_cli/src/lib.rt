//! The command line of `pict`: its words, the steps of a run, and what a run prints and tells.
//!
//! - `run_pict` is the call that `main` makes, over any folder and sinks. Its clause `headline` is
//!   what this project is for: after status 0 of a run that prints rows every one is valid, and every demanded tuple
//!   is served by a printed row, or no row serves it, and then the proof, where one is asked for, lists
//!   it with a tree that refutes it.
//!   `runs_in_memory` has the same call over a folder and sinks in memory, where the headline has no premise but the
//!   status.
//! - `read_words` is the definition's reading of words.
//!
//! But for the making and the writing of a model, which come first, all memory is taken before the first byte is written.
#![tactic(auto)]

mod generating;
mod growing;
mod kinds;
mod making;
mod measuring;
mod modes;
mod options;
mod preparing;
mod printing;
mod proof;
mod results;
mod rows;
mod run;
mod suite;
mod suspecting;
mod words;
mod working;

pub use command_line::Shuffle;
pub use options::{Opts, WordFault, read_words};
pub use run::run_pict;

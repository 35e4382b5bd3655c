//! The program `jeldroft`: its words, and which command does what they ask for.
//!
//! - `run_jeldroft` is the call that `main` makes, over any folder and sinks. It reads the words, and
//!   calls the command. specs/Promises says what each command promises: what the contract of its own call says,
//!   `run_generate` of `jeldroft_generate` and so on.
#![tactic(auto)]

mod dispatch;
mod run;
mod told;

pub use run::run_jeldroft;

//! The command line of `pictacts`: its arguments, the steps of a run, and what a run writes and reports.
//!
//! - `run_acts` is the call that `main` makes, over any folder and sink.
//! - specs/Words says what the arguments of `pictacts` ask for, and specs/Runs how a run may end.
//!
//! The translation is that of `acts_front`.
#![tactic(auto)]

mod run;
mod stop;
mod words;

pub use run::run_acts;

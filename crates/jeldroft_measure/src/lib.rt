//! The command `jeldroft measure`: how much of what is to be combined a given table of tests covers (NIST IR 7878).
//!
//! `run_measure` is its call, over any folder and sinks. What is printed are the figures of the definition `figures`, in
//! named words (specs/MeasureText); specs/Due says which text, or which cause for none, the files call for.
#![tactic(auto)]

mod measuring;
mod run;
mod telling;
mod text;

pub use run::run_measure;

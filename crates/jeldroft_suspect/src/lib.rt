//! The command `jeldroft suspect`: the combinations of values that only failing tests have, the smallest ones.
//!
//! `run_suspect` is its call, over any folder and sinks. What is printed are the combinations of the definition `suspects`,
//! in words (specs/SuspectsText); specs/Due says which text, or which cause for none, the files call for. specs/Results
//! says which tests of a table ran and which of them failed: the words of a column tell it.
//! `combinations_are_told_in_order` is the law of their order.
#![tactic(auto)]

mod cells;
mod laws;
mod outcome;
mod reading;
mod refusal;
mod run;
mod suspecting;
mod telling;
mod text;
mod told;

pub use laws::combinations_are_told_in_order;
pub use run::run_suspect;

//! The words in which `jeldroft` tells what it found: one finding a line, in the form that editors and build systems
//! follow, `FILE:LINE: error: WORDS [CODE]`.
//!
//! - `tell_failure` and `tell_cause` say why a command ended without what it was asked for, `tell_no_column` that a table
//!   has no column for a parameter, `tell_refused_table` where in a table its refusal stands.
//! - `tell_notes` gives the warnings on a file by their lines, `tell_table_notes` and `tell_text_notes` those on a table
//!   with what stands there. `FileNotes` keeps those on a model file and a table until they are told.
//! - `FileLines` gives the lines of a file, one after another.
//! - `forbidding_rule` finds a constraint that forbids a row by itself.
//! - `tell_fewer` sums up fewer tests in place of given ones, by a line that is a promise (specs/Sums).
//!
//! What is told changes nothing else: a fault of the sink is passed over. Where memory is wanting, a line says less.
#![tactic(auto)]

mod comma_words;
mod failure;
mod fewer_tests;
mod file_lines;
mod file_notes;
mod finding;
mod forbidding;
mod lookup;
mod model_source;
mod notes;
mod refused_table;
mod repeated_names;
mod shown;
mod table_notes;

pub use failure::{tell_cause, tell_failure, tell_no_column};
pub use fewer_tests::{FewerTests, tell_fewer};
pub use file_lines::FileLines;
pub use file_notes::FileNotes;
pub use forbidding::forbidding_rule;
pub use model_source::ModelSource;
pub use notes::tell_notes;
pub use refused_table::tell_refused_table;
pub use shown::Shown;
pub use table_notes::{tell_dropped_seed, tell_forbidden_seed, tell_table_notes, tell_text_notes};

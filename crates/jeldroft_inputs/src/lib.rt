//! What a model file and a table give a command of `jeldroft`, or the cause by which it ends at them (specs/Inputs).
//!
//! - `read_tests` reads the tests of a model in a table, and `read_table_of_tests` also leaves the bytes of the table.
//! - `model_files_give_one_answer` is the law that a model file gives one model, or one cause.
#![tactic(auto)]

mod laws;
mod tests;

pub use laws::model_files_give_one_answer;
pub use tests::{read_table_of_tests, read_tests};

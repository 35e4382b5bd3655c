//! The words in which findings about a model are told, with the names of its parameters and values.
//!
//! - `words_of` gives the words of a finding, and `finding_column` the column of what it is about.
//! - `add_line` adds its line, in the form that editors and build systems follow,
//!   `FILE:LINE:COLUMN: warning: WORDS [NAME]`.
//! - `literal_words`, `value_words` and the calls that give lines and names of a model are what such words are made of.
//!
//! The words are free, and so are the columns. Which findings a model has, `model_findings` says.
#![tactic(auto)]

mod column;
mod line;
mod meant;
mod names;
mod sameness;
mod spelling;
mod words;

pub use column::finding_column;
pub use line::add_line;
pub use names::{first_name, param_line, param_name, rule_line, value_name};
pub use spelling::{literal_words, value_words};
pub use words::words_of;

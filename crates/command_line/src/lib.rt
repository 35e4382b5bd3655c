//! What the command lines of the programs share.
//!
//! - `WordFault` is an argument that has no reading, `missing_name` a name that isn't there, and `refuse_words` ends a run
//!   for it.
//! - `setting_of` says what one argument of `pict` or `pictcheck` sets, `default_opts` how a model file is read where none
//!   says it, and `is_last_mark` and `has_equal_marks` where delimiters that are equal leave an argument no reading.
//! - `read_whole` reads a file of a kind within its limit of bytes, and `load_model` the model of a model file.
//! - `Stop` is why a run of `pict` or `pictcheck` ended before its output was written whole, with its status and its line.
//! - `put_model_line`, `put_limit` and `put_too_long` write the lines of refusals that each program has.
//! - `tell` writes what a run reports on standard error, `put_end` why it stopped, and `put_pairs` a combination.
//!
//! But for `read_whole` and `load_model`, no call takes memory.
#![tactic(auto)]

mod files;
mod lines;
mod load;
mod put;
mod setting;
mod stop;
mod told;
mod word_fault;
mod words;

pub use files::{FileKind, FileNames};
pub use lines::{put_limit, put_model_line, put_too_long, refuse_words};
pub use load::{load_model, read_whole};
pub use put::put_pairs;
pub use setting::{Setting, Shuffle, file_of, setting_of};
pub use stop::{Quantity, Stop};
pub use told::{put_end, tell};
pub use word_fault::WordFault;
pub use words::{default_opts, has_equal_marks, is_last_mark, missing_name, word_number};

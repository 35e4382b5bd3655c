//! What crates of tests share: models that are read from their texts, partial rows that are of them, and gates of
//! workers.
#![tactic(auto)]

mod counting;
mod meeting;
mod rows;
mod texts;

pub use counting::{Counting, WORKERS};
pub use meeting::Meeting;
pub use rows::{is_positive_row, row_of};
pub use texts::{DISK, OVERLAPPING, model_of, options, read};

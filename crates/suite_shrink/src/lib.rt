//! Fewer tests with the same coverage: the rows that a search proposes, once they are compared with
//! the given ones.
//!
//! - `shrink` gives at most as many rows as are given, each valid, which serve every demanded tuple
//!   that the given rows serve: specs/Shrinking of `shorter_suites` says what that is. Nothing rests
//!   on the search being right. What it proposes is compared with the given rows, and where it fails,
//!   the distinct ones of the given rows are the answer.
//! - It says too how many rows any suite needs that serves what the given rows serve.
//! - `is_contained` tells whether a row contains a seed row, and `copied_rows` copies the rows of a file.
#![tactic(auto)]

mod accepting;
mod comparing;
mod copied;
mod first_rows;
mod least;
mod planned_model;
mod seeds;
mod served;
mod shrinking;
mod valid;

pub use copied::copied_rows;
pub use planned_model::PlannedModel;
pub use seeds::is_contained;
pub use shrinking::{ShrinkOpts, Shrunk, shrink};

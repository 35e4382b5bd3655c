//! How much of the demand the rows of a suite cover: all of them, and the first so many.
//!
//! - `coverage_of` tells how many demanded tuples the rows cover, and of which demanded set they cover the most. Rows that
//!   are no tests cover nothing.
//! - `covered_after` tells how many the first rows cover, at each of some numbers of rows, and `round_counts` gives such
//!   numbers: 1, 2, 5, 10 and so on, and all.
#![tactic(auto)]

mod counting;
mod coverage;
mod curve;
mod rounds;

pub use coverage::{Coverage, LargestSet, SuiteNumbers, coverage_of, numbers_of};
pub use curve::{CurvePoint, covered_after};
pub use rounds::round_counts;

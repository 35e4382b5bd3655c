//! The gains of the values of a column, scored by workers.
//!
//! - `score_all` splits the values among the workers, who read one table of open tuples. The scores are
//!   the plain gains, for every number of workers.
#![tactic(auto)]

mod score;

pub use score::score_all;

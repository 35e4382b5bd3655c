//! Sets of partial rows, of which no two are the same.
//!
//! - `RowSet` keeps rows in order of first occurrence. `add` tells whether a row is a new one.
#![tactic(auto)]

mod row_set;

pub use row_set::RowSet;

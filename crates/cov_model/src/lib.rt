//! The test model that every other crate speaks of: parameters with their values, constraints,
//! what is demanded, and the rows and tuples over them.
//!
//! - `TestModel` keeps that its model is sound: every accessor says so.
//! - `Cells` is a partial row, with a place for each parameter; `Tuple` is one as its rising pairs.
//! - `Rows` keeps partial rows one behind another in one piece of memory.
//! - specs/Meaning says when a constraint holds on a row, and specs/Kleene what is known of it on a
//!   partial row; `TestModel::eval` tells the latter. By `partial_rows_tell` what is known stays.
//! - `TestModel::row_fault` says why a row isn't valid.
//! - `Prefs` keeps in which order the values of each parameter are taken.
#![tactic(auto)]

mod cells;
mod constraint;
mod demand;
mod eval;
mod model;
mod parameter;
mod prefs;
mod row_fault;
mod rows;
mod slice;
mod truth;
mod tuple;

pub use cells::Cells;
pub use constraint::{Body, Literal, LiteralList, Pred, PredList, Rel, Rule, RuleList, Term};
pub use demand::{Demand, Group, GroupList, NoList};
pub use model::TestModel;
pub use parameter::{Param, ParamList, ParamNo, Value, ValueList, ValueNo};
pub use prefs::Prefs;
pub use row_fault::{RowWhy, partial_rows_tell};
pub use rows::Rows;
pub use slice::Slice;
pub use truth::Truth;
pub use tuple::{Tuple, TupleList};

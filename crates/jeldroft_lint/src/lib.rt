//! `lint`: tells what is wrong or odd about a model.
//!
//! - `run_lint` is the command. specs/Linting says what its statuses and what it prints say, specs/Remarks what is told
//!   of a model, and specs/Texts how it is written.
//! - `Remark` is a thing that is told, and `Kind` what it is: one of the findings of `model_findings`, or a hint, for which
//!   the form of a line is enough.
#![tactic(auto)]

mod answer;
mod hint_list;
mod hints;
mod kind;
mod likeness;
mod lines;
mod naming;
mod objects;
mod order;
mod remark;
mod remarks;
mod run;

pub use kind::Kind;
pub use remark::Remark;
pub use run::run_lint;

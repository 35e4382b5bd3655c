//! What is wrong or odd about a model, as a list of findings.
//!
//! - `findings` gives all findings about a model: that there is no test, values that are in none, comparisons that are
//!   the same for every value, conditions that never hold and, where they are asked for, constraints that exclude
//!   nothing.
//! - `findings_by` does the same by a search that is given.
//! - `terms_of` gives the terms of a constraint, whose places the findings name.
//! - `passes_without_comparisons` says whether a value is in a test once no constraint compares values of its parameter.
//!
//! specs/Findings says which findings a model has, and specs/Comparisons which comparisons are told.
#![tactic(auto)]

mod comparing;
mod constraint;
mod finding;
mod gathering;
mod rules;
mod search;
mod terms;
mod without;

pub use finding::{Finding, FindingList};
pub use gathering::{findings, findings_by};
pub use terms::terms_of;
pub use without::{compares, passes_without_comparisons};

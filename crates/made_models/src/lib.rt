//! Made models: a model file for each number, of sixty parameters and thirty constraints that forbid pairs.
//!
//! `made_model` is the text of specs/MadeModel, whose numbers come from the words of PCG.
#![tactic(auto)]

mod forbidden;
mod making;
mod texts;

pub use making::made_model;

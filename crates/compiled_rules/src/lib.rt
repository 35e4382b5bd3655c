//! The constraints of a model with each term compiled to the truths at its values.
//!
//! - `CompiledRules::new` evaluates each term at each value of its parameter, or at each pair of values of
//!   its two, and keeps the truths in a table, a bit each: a search asks for the same constraints on very
//!   many partial rows. A comparison with more pairs than the table has room for stays as it is.
//! - `CompiledRules::truth` then tells what is known of a constraint on a partial row, and takes no memory.
//!   Its promise is its one clause: this is what specs/Kleene of `cov_model` says, as of `TestModel::eval`.
//!   It holds by what the type keeps: over the table, each code is that of its constraint (specs/Codes).
#![tactic(auto)]

mod code;
mod compile;
mod rules;
mod table;

pub use rules::CompiledRules;

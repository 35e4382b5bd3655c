//! Whether a partial row is extendable, by the search that the effort asks for.
//!
//! - `Questions` asks, completes and refutes: within a budget by plain search, and without one by a
//!   search that answers every question.
#![tactic(auto)]

mod branching;
mod closing;
mod completing;
mod conflict;
mod conflicts;
mod failing;
mod finding;
mod full;
mod questions;
mod reason;
mod search;
mod searching;
mod witness;

pub use questions::Questions;

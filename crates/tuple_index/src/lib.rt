//! The demanded sets of a model, the number of demanded tuples of each, and the places of these tuples.
//!
//! `Plan` lists the sets in lexicographic order. The demanded tuples of a set are numbered by their
//! ranks from 0; `Plan::base` puts the ranks of all sets one after another. That a tuple has one rank,
//! and a rank one tuple, is a law over plain lists: `ranks_are_inverse`.
#![tactic(auto)]

mod bases;
mod choices;
mod count;
mod demand;
mod fault;
mod laws;
mod order;
mod plan;
mod sets;
mod values;

pub use fault::PlanFault;
pub use laws::ranks_are_inverse;
pub use plan::Plan;

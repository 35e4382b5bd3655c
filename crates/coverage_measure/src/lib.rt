//! The figures of a given suite: how much of the demand its tests cover (NIST IR 7878).
//!
//! - `measure` counts the rows of a file, marks by workers the demanded tuples that its tests serve, and asks
//!   of each demanded tuple whether some row of the model serves it. Its promise is the clause `figures`: the
//!   figures are those of the definition, for every number of workers from 1 to 64.
//! - The questions of such a run are the demanded tuples in their order. The clause `ends` says that figures come
//!   only where no plain cost is above what a question may cost, and that `Spent` names the first tuple whose
//!   plain cost is.
//!   Want of memory is the only other end.
#![tactic(auto)]

mod asking;
mod covered;
mod measuring;
mod servable;
mod set_figures;
mod suite_rows;

pub use measuring::measure;

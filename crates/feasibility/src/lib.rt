//! Whether a partial row is extendable: plain search for a completion, held to a budget.
//!
//! - `Solver` asks and completes; `SearchTree` has the search, whose nodes, answers and rows are those
//!   of the definition of plain search. Its live values, and `Refuter`, which tells the leaves of a tree,
//!   serve the search without a budget too.
//! - `over_budget` makes the fault of a question whose plain cost exceeds the budget, and `tuple_of` its tuple.
//! - `Solver::refute` gives a tree that refutes a tuple which no row serves.
//! - That a search succeeds exactly on what is extendable, and reaches the first completion, is a law
//!   over plain lists: `plain_search_is_exact`.
#![tactic(auto)]

mod answer;
mod answer_table;
mod answered;
mod closing;
mod constrained;
mod descent;
mod doubtful;
mod kept_tree;
mod laws;
mod making;
mod members;
mod named;
mod narrowing;
mod question;
mod refuter;
mod refuting;
mod safe_values;
mod solver;
mod tree;
mod values;
mod visiting;
mod workspace;

pub use answer::{Answer, Question, RefuteFault, SearchFault};
pub use constrained::Constrained;
pub use laws::plain_search_is_exact;
pub use question::{over_budget, tuple_of};
pub use refuter::Refuter;
pub use solver::Solver;
pub use tree::SearchTree;
pub use values::slice_lists;

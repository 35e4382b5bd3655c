//! Which combinations of values explain the failing tests of a suite: the smallest tuples that only failing rows
//! contain (this project's rule).
//!
//! - `read_results` reads a file of results: a row file with a column `:result`, whose cells say `pass` or `fail`.
//! - `suspects` gives the smallest suspicious tuples of 1 to t parameters, t being the order, all of them, each once
//!   and in order: exactly the list of specs/Suspects.
//! - `put_suspects` writes their text, and takes no memory.
#![tactic(auto)]

mod counting;
mod edges;
mod reading;
mod result_file;
mod results_fault;
mod row_bits;
mod row_list;
mod row_set;
mod search;
mod set_counts;
mod sets;
mod suspect_fault;
mod suspect_list;
mod take_last;
mod text;
mod value_rows;

pub use reading::read_results;
pub use result_file::{FlagList, ResultFile};
pub use results_fault::ResultsFault;
pub use search::suspects;
pub use suspect_fault::SuspectFault;
pub use suspect_list::{Found, FoundList, Suspects};
pub use text::put_suspects;

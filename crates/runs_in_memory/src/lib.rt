//! Runs of the programs over folders and sinks in memory.
//!
//! - `run_pict_in_memory`, `run_check_in_memory` and `run_seq_in_memory` are the calls of the programs over a folder and
//!   sinks in memory. These tell everything, so the headline of each stands there without a premise but the status.
//! - `run_pict_without_faults` and `run_check_without_faults` are the same over a folder and sinks that never fail, so
//!   which status comes stands there without a premise on faults.
//! - `printed_is_accepted` states that the checker accepts what `pict` prints.
#![tactic(auto)]

mod check_in_memory;
mod check_without_faults;
mod laws;
mod pict_in_memory;
mod pict_without_faults;
mod seq_in_memory;

pub use check_in_memory::run_check_in_memory;
pub use check_without_faults::run_check_without_faults;
pub use laws::printed_is_accepted;
pub use pict_in_memory::run_pict_in_memory;
pub use pict_without_faults::run_pict_without_faults;
pub use seq_in_memory::run_seq_in_memory;

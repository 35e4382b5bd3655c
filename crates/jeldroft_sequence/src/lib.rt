//! The command `sequence` of `jeldroft`: orders of events, so that each sequence of two or three events occurs, or the
//! verdict on a report of such orders.
//!
//! - `run_sequence` is the call that the program makes, over any folder and sinks.
//! - specs/Sequences says which report or which verdict, or which cause for none, the files call for, and specs/Runs how
//!   a command ends that prints a verdict.
//!
//! The orders are those of `seq_cover`, and the verdict is that of `seq_check`.
#![tactic(auto)]

mod cause;
mod ended;
mod orders;
mod read;
mod refused_part;
mod run;
mod told;
mod verdict;

pub use cause::{SequenceCause, SequenceFile};
pub use run::run_sequence;

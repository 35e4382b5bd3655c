//! Marks that several workers put into one table, and so the demanded tuples that a suite serves.
//!
//! - `SharedMarks` is the table. `mark` and `is_marked` are one atomic step each on one word, a `fetch_or` and a
//!   load; `split` and `join` change no word. `mark_served` takes a load, and a `mark` where the bit isn't
//!   set, for each demanded tuple that a test serves. None of these calls takes memory or waits for another
//!   worker. specs/Seats says what a seat holds and what each kind of step does to it, specs/Facts what holds of
//!   the words and of all seats between any two steps, specs/Steps what a step is, and what one does that marks several
//!   places of one word. That the facts stay is the clause `step` of `mark` and `is_marked`, and for splits and joins the
//!   law `facts_are_kept`.
//! - `Bits` are the marks of a closed table. Only `SharedMarks::close` makes them.
//! - `SharedMarks::mark_served` marks what some rows of a file serve, and `mark_rows` does so for all rows,
//!   by workers: the marks are those of the served tuples, for every number of workers from 1 to 64. Each
//!   demanded tuple has a place, the base of its set plus its rank (`places_are_ranks`).
#![tactic(auto)]

mod bits;
mod digits;
mod flags;
mod holding;
mod laws;
mod many_rows;
mod open_sets;
mod ranks;
mod rule;
mod seat;
mod served;
mod table;
mod test_columns;
mod workers;

pub use bits::Bits;
pub use laws::{facts_are_kept, places_are_ranks};
pub use seat::MarkSeat;
pub use served::count_tuples;
pub use table::SharedMarks;
pub use workers::mark_rows;

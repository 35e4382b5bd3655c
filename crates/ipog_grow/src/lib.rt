//! The growth of a suite (IPOG, by Lei and others 2007; ties are this project's rule).
//!
//! - `generate` grows slice by slice and column by column. Horizontal growth gives each partial row
//!   the value that covers most, as far as the row stays extendable; vertical growth puts what is
//!   left into rows that agree with it, or into new ones. What no row can contain is omitted, and
//!   where a proof is asked for, it gets a tree. At the end each partial row is completed. Its promise
//!   is the clause `suite`: rows and omitted tuples are exactly those of the definition of growth.
//! - Its questions are told by the same definition. The clause `asked` says that a run ends at the
//!   first of them whose plain cost is above what one may cost, and with a suite only where there is
//!   none.
#![tactic(auto)]

mod asker;
mod candidates;
mod completing;
mod contained;
mod distinct;
mod fill;
mod fingerprint;
mod finish;
mod generating;
mod horizontal;
mod input;
mod join;
mod order;
mod place_tuple;
mod question;
mod seeds;
mod slice_growth;
mod slice_suite;
mod slices;
mod stop;
mod suite;
mod top_score;
mod unfilled;
mod unions;
mod value_order;
mod values;
mod workers;

pub use generating::generate;
pub use suite::{GrowOpts, LineList, Suite};

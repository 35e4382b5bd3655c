//! The page of a suite, as one text.
//!
//! - `write_page` writes the page of a model's rows: what is said of the suite, the curve of what its first tests cover, its
//!   tests, and the combinations that a proof leaves out, in groups by what leaves them out. Its text is that of one tree of
//!   elements, so by the law of `html_page` nothing in it is markup but this tree.
//! - `PageWords` is what is said of the suite: the verdict and the numbers, in the words of the caller.
//!
//! At most 1,000 tests and 1,000 combinations are shown; the page says how many follow.
#![tactic(auto)]

mod cell;
mod curve;
mod omitted;
mod page;
mod tests;

pub use page::{PageWords, write_page};

//! What is wrong or odd about a model, each finding a theorem about it.
//!
//! - `conflict_of` gives constraints that no row of a slice which contains a partial row meets together, of which none
//!   can be left out.
//! - `no_test` says whether no row is valid, and `unused_values` gives the values that are in no test, each with such
//!   constraints.
//! - `never_excludes` and `never_applies` say whether a constraint excludes nothing, and whether its condition never
//!   holds. `has_test_of_marked` says whether there is a test once some constraints are left out.
//!
//! specs/Tests and specs/Constraints say what that means. The search is the caller's: a `Completer` of any models, and
//! an `Asker` of the model at hand.
#![tactic(auto)]

mod change;
mod changing;
mod completer;
mod conflict;
mod constraints;
mod copying;
mod finding;
mod seeking;
mod trees;
mod unused;

pub use completer::{Asker, Completer, Sought};
pub use conflict::conflict_of;
pub use constraints::{has_test_of_marked, never_applies, never_excludes};
pub use finding::{RuleNumbers, UnusedList, UnusedValue};
pub use trees::copy_literal;
pub use unused::{no_test, unused_values};

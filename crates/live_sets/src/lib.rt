//! The values of parameters that are live in a search, and a trail of those that were taken away.
//!
//! - A search takes values away as it goes on, and puts them back as it goes back. `LiveSets` has a mark for
//!   each value of each parameter, which is set where the value is live, and the trail. Contracts see both as
//!   lists, the `LiveView` of specs/Trail.
//! - Each call is one operation on these lists. The promise is the clause of `take_away`, that one mark is
//!   cleared and its value stands at the trail's end, and that of `undo`: the sets become `undone`, where
//!   the values of the trail behind a length are live again and the trail has this length.
//! - So going back to a length that the trail had gives the sets of then: that is `IsSince` of specs/Trail, whose
//!   lemmas are in proofs/TrailLemmas.
//! - `new` takes all memory: the trail has room for every value that is live then.
#![tactic(auto)]

mod sets;

pub use sets::LiveSets;

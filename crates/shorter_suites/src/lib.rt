//! What a shorter suite is that serves what given rows serve, and what is proved of such suites.
//!
//! - specs/Shrinking says what a shorter suite is, and specs/Bounds how many rows any needs.
//! - By `accepted_stay` a proof that is accepted with the given rows is accepted with the shorter ones, and by
//!   `none_is_shorter` no suite has fewer rows than that.
#![tactic(auto)]

mod laws;

pub use laws::{accepted_stay, none_is_shorter};

//! Tests of the lowest crates: worked cases, and once each call that takes memory.
//!
//! - `texts` and `lists`: texts, numbers and patterns; lists, marks, live values and packed lists.
//! - `folders` and `sinks`: those in memory, those that never fail, and those over real files and streams.
//! - `made_texts`: made models.
//! - `words`: the words of a command line.
#![tactic(auto)]

#[cfg(test)]
mod folders;
#[cfg(test)]
mod lists;
#[cfg(test)]
mod made_texts;
#[cfg(test)]
mod sinks;
#[cfg(test)]
mod texts;
#[cfg(test)]
mod words;

//! Tests of row files that are read under models which are read from their texts.
#![tactic(auto)]

#[cfg(test)]
mod files;
#[cfg(test)]
mod folders;
#[cfg(test)]
mod refusals;
#[cfg(test)]
mod rows;

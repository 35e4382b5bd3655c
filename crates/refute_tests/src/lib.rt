//! Tests of the trees that refute tuples, on models that are read from their texts.
#![tactic(auto)]

#[cfg(test)]
mod refuted;
#[cfg(test)]
mod trees;

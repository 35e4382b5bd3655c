//! Tests of the reading of model files: lines and tokens, constraints and their texts, parameters and groups, and the
//! order in which a file is refused.
#![tactic(auto)]

#[cfg(test)]
mod constraints;
#[cfg(test)]
mod limits;
#[cfg(test)]
mod lines;
#[cfg(test)]
mod models;
#[cfg(test)]
mod refusals;

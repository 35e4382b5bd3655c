//! Tests of where a model file is refused, and of what is told of it.
#![tactic(auto)]

#[cfg(test)]
mod constraints;
#[cfg(test)]
mod lines;
#[cfg(test)]
mod places;
#[cfg(test)]
mod written;

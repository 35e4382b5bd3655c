//! Tests on models that are read from their texts: preference orders, demanded sets and ranks, open tuples and gains.
#![tactic(auto)]

#[cfg(test)]
mod gains;
#[cfg(test)]
mod models;
#[cfg(test)]
mod open_list;
#[cfg(test)]
mod plans;
#[cfg(test)]
mod workers;

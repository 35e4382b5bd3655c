//! Tests on models that are read from their texts: the search, growth, and the texts of reports, statistics and
//! figures.
#![tactic(auto)]

#[cfg(test)]
mod growth;
#[cfg(test)]
mod reports;
#[cfg(test)]
mod search;

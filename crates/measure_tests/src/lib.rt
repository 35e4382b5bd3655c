//! Tests of the figures of given suites, with different numbers of workers and budgets, and of shorter suites.
#![tactic(auto)]

#[cfg(test)]
mod budgets;
#[cfg(test)]
mod figures;
#[cfg(test)]
mod gate;
#[cfg(test)]
mod shrinking;
#[cfg(test)]
mod suites;

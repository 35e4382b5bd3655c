//! Tests of marks that workers put into one table, and of the demanded tuples that a suite serves.
#![tactic(auto)]

#[cfg(test)]
mod files;
#[cfg(test)]
mod gate;
#[cfg(test)]
mod marks;
#[cfg(test)]
mod seats;
#[cfg(test)]
mod served;

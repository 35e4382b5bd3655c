//! Tests of files of results and of the suspicious tuples that are found in them.
#![tactic(auto)]

#[cfg(test)]
mod candidates;
#[cfg(test)]
mod lists;
#[cfg(test)]
mod long_files;
#[cfg(test)]
mod refusals;
#[cfg(test)]
mod results;

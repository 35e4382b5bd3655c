//! Tests of files in the form of ACTS: their translations, their refusals, and whole runs of `pictacts`.
#![tactic(auto)]

#[cfg(test)]
mod files;
#[cfg(test)]
mod runs;

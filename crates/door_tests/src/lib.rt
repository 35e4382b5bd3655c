//! Tests of the command line of `jeldroft`: what words ask for, and how others are refused.
#![tactic(auto)]

#[cfg(test)]
mod asked;
#[cfg(test)]
mod faults;
#[cfg(test)]
mod names;
#[cfg(test)]
mod words;

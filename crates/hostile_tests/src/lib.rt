//! Tests of runs of `pict` over broken, refused and large models, and over folders and sinks that fail.
#![tactic(auto)]

#[cfg(test)]
mod broken;
#[cfg(test)]
mod faults;
#[cfg(test)]
mod limits;
#[cfg(test)]
mod refusals;

//! Tests of whole runs of `pictcheck`: what it says of reports and proofs, and how it ends.
#![tactic(auto)]

#[cfg(test)]
mod every_question;
#[cfg(test)]
mod faults;
#[cfg(test)]
mod prefixes;
#[cfg(test)]
mod refusals;
#[cfg(test)]
mod runs;
#[cfg(test)]
mod verdicts;
#[cfg(test)]
mod words;

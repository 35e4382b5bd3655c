//! Tests of the checker: its verdicts on reports and proofs, with different numbers of workers.
#![tactic(auto)]

#[cfg(test)]
mod checks;
#[cfg(test)]
mod disk;
#[cfg(test)]
mod gate;
#[cfg(test)]
mod verdicts;

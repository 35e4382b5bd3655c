//! Tests of files of events, of verdicts on reports of orders, of the growth of orders, and of whole runs of `pictseq`.
#![tactic(auto)]

#[cfg(test)]
mod events;
#[cfg(test)]
mod faults;
#[cfg(test)]
mod growth;
#[cfg(test)]
mod runs;
#[cfg(test)]
mod verdicts;

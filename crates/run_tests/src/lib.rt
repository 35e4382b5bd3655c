//! Tests of whole runs of `pict`: what is printed of models, and what its words ask for.
#![tactic(auto)]

#[cfg(test)]
mod both_searches;
#[cfg(test)]
mod commands;
#[cfg(test)]
mod constraints;
#[cfg(test)]
mod disk;
#[cfg(test)]
mod every_question;
#[cfg(test)]
mod given_suites;
#[cfg(test)]
mod growth;
#[cfg(test)]
mod language;
#[cfg(test)]
mod made;
#[cfg(test)]
mod proofs;
#[cfg(test)]
mod seeds;
#[cfg(test)]
mod words;

//! Tests of trees and proof files, on models that are read from their texts.
#![tactic(auto)]

#[cfg(test)]
mod files;
#[cfg(test)]
mod proofs;
#[cfg(test)]
mod trees;

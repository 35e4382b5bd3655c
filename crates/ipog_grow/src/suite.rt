use cov_model::Rows;
use definitions::Effort;
use refutation::{Omissions, ProofForm};
use value_text::OwnedList;

/// Some line numbers, in order.
pub type LineList = OwnedList<u32>;

/// How a suite is generated.
#[derive(Drop)]
pub struct GrowOpts {
    /// What a question may cost.
    pub effort: Effort,
    /// The number of workers, from 1 to 64. The suite doesn't depend on it.
    pub workers: u32,
    /// The form of the trees of the omitted tuples, where a proof is asked for.
    pub proof: Option<ProofForm>,
}

/// What was generated.
#[derive(Drop)]
pub struct Suite {
    /// The rows, which are complete.
    pub rows: Rows,
    /// The omitted tuples in the order in which they were omitted. Where no proof was asked for, their
    /// trees are empty and the form is the first.
    pub omitted: Omissions,
    /// The number of seed rows that were kept.
    pub kept: u32,
    /// The lines of the seed rows that weren't kept, each by its first occurrence.
    pub dropped: LineList,
}

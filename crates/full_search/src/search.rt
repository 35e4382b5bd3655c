use crate::full::FullSearch;
use feasibility::Solver;

// Plain search, with so many nodes for each question.
#[derive(Drop)]
pub(crate) struct Bounded<'a> {
    pub(crate) solver: Solver<'a>,
    pub(crate) budget: u64,
}

// The search that answers the questions.
#[derive(Drop)]
pub(crate) enum Search<'a> {
    // Within a budget.
    Within(Bounded<'a>),
    // With an answer to every question.
    Full(FullSearch<'a>),
}

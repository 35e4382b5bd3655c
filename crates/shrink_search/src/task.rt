use crate::search::SearchOpts;
use cov_model::{Rows, TestModel};
use tuple_index::Plan;

// What the search is about, for all slices.
#[derive(Clone, Copy)]
pub(crate) struct Task<'a> {
    pub(crate) model: &'a TestModel,
    pub(crate) plan: &'a Plan,
    pub(crate) rows: &'a Rows,
    pub(crate) seeds: &'a Rows,
    // by seed row the number of the row that keeps its values
    pub(crate) holders: &'a [Option<u32>],
    pub(crate) opts: SearchOpts,
}

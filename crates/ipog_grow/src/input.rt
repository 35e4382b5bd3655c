use cov_model::{Prefs, Rows, TestModel};
use definitions::Effort;
use refutation::ProofForm;
use tuple_index::Plan;

// What every slice of a suite grows from: a model with its plan and preferences, the kept seeds, what
// a question may cost, and the form of the trees where a proof is asked for.
#[derive(Drop)]
pub(crate) struct GrowInput<'a> {
    pub(crate) model: &'a TestModel,
    pub(crate) plan: &'a Plan,
    pub(crate) prefs: &'a Prefs,
    pub(crate) kept: &'a Rows,
    pub(crate) effort: Effort,
    pub(crate) proof: Option<ProofForm>,
}

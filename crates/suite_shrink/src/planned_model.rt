use cov_model::{Prefs, TestModel};
use tuple_index::Plan;

/// A model, the order in which the values of its parameters are preferred, and its plan.
#[derive(Clone, Copy)]
pub struct PlannedModel<'a> {
    /// The model.
    pub model: &'a TestModel,
    /// Its preference orders.
    pub prefs: &'a Prefs,
    /// Its plan.
    pub plan: &'a Plan,
}

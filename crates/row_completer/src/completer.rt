ghost use Rattle.std.specs.Prelude.{◌≡◌, true};
ghost use Rattle.cov_model.specs.Preference.{OrdersValues};
ghost use Rattle.definitions.specs.SliceRows.{IsSliceOf};

use crate::slice_questions::SliceQuestions;
use cov_model::{Cells, Prefs, Slice, TestModel};
use definitions::Effort;
use shrink_search::Completer;
use std::alloc::Global;
use std::marker::Model;
use value_text::NoMemory;

/// Completes partial rows of the slices of a model, one slice after another (this project's rule).
/// Contracts see the model, which no call changes.
pub struct RowCompleter<'a> {
    alloc: Global,
    model: &'a TestModel,
    prefs: &'a Prefs,
    effort: Effort,
    // about the slice that was entered
    questions: Option<SliceQuestions<'a>>,
}

// Its questions are dropped here, and not anew wherever a search may end.
impl Drop for RowCompleter<'_> {
    fn drop(self) {
        let RowCompleter {
            alloc: _,
            model: _,
            prefs: _,
            effort: _,
            questions: _,
        } = self;
    }
}

impl<'a> Model for RowCompleter<'a> {
    ghost use Rattle.std.specs.Coded.{codes};
    ghost use Rattle.cov_model.specs.contracts.model.TestModel as tested;
    ghost use Rattle.cov_model.specs.Preference.{OrdersValues};
    ghost use Rattle.cov_model.specs.believed.Sound.{ModelView};

    ghost Value = { ModelView };

    ghost coded = { Prim.hlevel (codes, tested.the_row.coded) };

    ghost view = { λ a. a.model.now };

    ghost invariant = { λ a. OrdersValues a.model.now a.prefs.now };
}

impl<'a> RowCompleter<'a> {
    /// For this model and its preference orders. A question may cost as much as the effort says. Takes
    /// no memory.
    pub fn new(
        alloc: Global,
        model: &'a TestModel,
        prefs: &'a Prefs,
        effort: Effort,
    ) -> RowCompleter<'a>
        requires { OrdersValues model.now prefs.now }
        ensures { result ≡ model.now }
    {
        RowCompleter {
            alloc,
            model,
            prefs,
            effort,
            questions: None,
        }
    }
}

// Whether a slice is one of the model's.
fn is_slice_of(model: &TestModel, slice: Slice) -> bool
    ensures { result ≡ true → IsSliceOf model.now slice }
{
    match slice {
        Slice::Positive => true,
        Slice::Negative(p, v) => {
            (p as usize) < model.params().len()
                && v < model.value_count(p)
                && model.is_negative(p, v)
        }
    }
}

impl<'a> Completer for RowCompleter<'a> {
    fn enter(&mut self, slice: Slice) -> Result<(), NoMemory> {
        self.questions = None;
        if is_slice_of(self.model, slice) {
            let questions = SliceQuestions::new(
                self.alloc,
                self.model,
                self.prefs,
                slice,
                self.effort,
            )?;
            self.questions = Some(questions);
        }
        Ok(())
    }

    fn can_complete(&mut self, part: &Cells) -> bool {
        match &mut self.questions {
            Some(questions) => questions.can_complete(part),
            None => false,
        }
    }

    fn complete(&mut self, part: &Cells, into: &mut Cells) -> bool {
        match &mut self.questions {
            Some(questions) => questions.complete(part, into),
            None => false,
        }
    }
}

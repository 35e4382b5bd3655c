ghost use Rattle.std.specs.Prelude.{◌≡◌, true, IfOk};
ghost use Rattle.std.specs.Option.{option_map_or};
ghost use Rattle.cov_model.specs.Preference.{OrdersValues};
ghost use Rattle.definitions.specs.believed.Demand.{is_among};
ghost use Rattle.definitions.specs.SliceRows.{IsOfSlice, IsSliceOf};

use cov_model::{Cells, Prefs, Slice, TestModel, ValueNo};
use definitions::Effort;
use feasibility::{Answer, slice_lists};
use full_search::Questions;
use packed_lists::PackedLists;
use std::alloc::Global;
use std::marker::Model;
use value_text::NoMemory;

// Questions about a slice, asked of any partial row: one that isn't of the slice has no completion
// there. Contracts see what decides the answers, and no call changes it.
pub(crate) struct SliceQuestions<'a> {
    questions: Questions<'a>,
    // each parameter's values in the slice
    values: PackedLists,
}

// Its parts are dropped here, and not anew wherever a search may end.
impl Drop for SliceQuestions<'_> {
    fn drop(self) {
        let SliceQuestions {
            questions: _,
            values: _,
        } = self;
    }
}

impl<'a> Model for SliceQuestions<'a> {
    ghost use Rattle.std.specs.Coded.{codes};
    ghost use Rattle.cov_model.specs.contracts.model.TestModel as tested;
    ghost use Rattle.full_search.specs.Questions.{QuestionsView};
    ghost use Rattle.row_completer.specs.SliceValues.{AreValuesOf};

    ghost Value = { QuestionsView };

    ghost coded = { Prim.hlevel (codes, tested.the_row.coded) };

    ghost view = { λ a. a.questions };

    ghost invariant = { λ a. AreValuesOf a.questions.model a.questions.slice a.values };
}

// Whether a value is one of these.
fn is_among(values: &[ValueNo], v: ValueNo) -> bool
    ensures { result ≡ is_among values.now v }
{
    values.iter().any(|w| *w == v)
}

// Whether a cell has no value, or one of these.
fn is_listed(values: &[ValueNo], cell: Option<ValueNo>) -> bool
    ensures { result ≡ option_map_or (is_among values.now) cell true }
{
    match cell {
        Some(v) => is_among(values, v),
        None => true,
    }
}

impl<'a> SliceQuestions<'a> {
    // About this slice of the model, which has to be one of the model's; the preferences have to be
    // the model's too.
    pub(crate) fn new(
        alloc: Global,
        model: &'a TestModel,
        prefs: &'a Prefs,
        slice: Slice,
        effort: Effort,
    ) -> Result<SliceQuestions<'a>, NoMemory>
        requires slice { IsSliceOf model.now slice }
        requires orders { OrdersValues model.now prefs.now }
        ensures { IfOk result (λ questions. questions
            ≡ record { model = model.now; prefs = prefs.now; slice = slice; effort = effort }) }
    {
        let values = slice_lists(alloc, model, slice)?;
        let questions = Questions::new(alloc, model, prefs, slice, effort)?;
        Ok(SliceQuestions { questions, values })
    }

    // Whether each value that a partial row gives is one of the slice.
    fn is_of_slice(&self, cells: &Cells) -> bool
        ensures { result ≡ true → IsOfSlice self.now.model self.now.slice cells.now }
    {
        let lists = &self.values;
        if cells.len() != lists.len() {
            return false;
        }
        for p in 0..cells.len() {
            if !is_listed(lists.list(p), cells.as_slice()[p]) {
                return false;
            }
        }
        true
    }

    // Whether a completion of a partial row is known.
    pub(crate) fn can_complete(&mut self, part: &Cells) -> bool
        ensures { self.new ≡ self.old }
    {
        self.is_of_slice(part) && self.questions.ask(part) == Answer::Yes
    }

    // Puts a completion of a partial row, if one is known, and tells whether one is.
    pub(crate) fn complete(&mut self, part: &Cells, into: &mut Cells) -> bool
        ensures { self.new ≡ self.old }
    {
        self.is_of_slice(part)
            && into.len() == part.len()
            && self.questions.complete(part, into) == Answer::Yes
    }
}

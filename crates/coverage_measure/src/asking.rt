ghost use Rattle.std.specs.Prelude.{◌≡◌, [], ◌∷◌, All, Some, IfOk, IfSome, find, map, slice_get};
ghost use Rattle.cov_model.specs.Preference.{OrdersValues};
ghost use Rattle.definitions.specs.SliceRows.{IsOfSlice, IsSliceOf};
ghost use Rattle.feasibility.specs.Ends.{Ends};
ghost use Rattle.coverage_measure.specs.Asking.{IsFor, is_above, is_found, tally};

use cov_model::{Cells, Prefs, Slice, TestModel};
use definitions::Effort;
use feasibility::{Answer, SearchFault, over_budget, slice_lists};
use full_search::Questions;
use packed_lists::PackedLists;
use std::alloc::Global;
use value_text::NoMemory;

// The most slices whose questions are kept at a time: a model may have more than there is room for.
const MOST_KEPT: usize = 256;

// Questions, the slice that they are about, and each parameter's values there in declared order.
#[derive(Drop)]
pub(crate) struct KeptQuestions<'a> {
    pub(crate) slice: Slice,
    pub(crate) questions: Questions<'a>,
    pub(crate) values: PackedLists,
}

// What is asked of: a model and its preferences, and what a question may cost.
#[derive(Drop)]
pub(crate) struct Asking<'a> {
    pub(crate) alloc: Global,
    pub(crate) model: &'a TestModel,
    pub(crate) prefs: &'a Prefs,
    pub(crate) effort: Effort,
}

// The place of the questions about a slice, if they are kept.
fn find_kept(kept: &[KeptQuestions<'_>], slice: Slice) -> Option<usize>
    ensures { IfSome result (λ place. slice_get (map (λ one. one.slice) kept.now) place ≡ Some slice) }
{
    for (place, one) in kept.iter().enumerate() {
        if one.slice == slice {
            return Some(place);
        }
    }
    None
}

impl<'a> Asking<'a> {
    // The place of the questions about a slice, which are made where they aren't kept. Where too many would be
    // kept, the last ones make way.
    pub(crate) fn place_of(
        &self,
        kept: &mut Vec<KeptQuestions<'a>>,
        slice: Slice,
    ) -> Result<usize, NoMemory>
        requires orders { OrdersValues self.now.model.now self.now.prefs.now }
        requires kept { All (IsFor self.now.model.now self.now.prefs.now self.now.effort) kept.old.items }
        requires slice { IsSliceOf self.now.model.now slice }
        ensures place { IfOk result (λ place. slice_get (map (λ one. one.slice) kept.new.items) place ≡ Some slice) }
        ensures kept { All (IsFor self.now.model.now self.now.prefs.now self.now.effort) kept.new.items }
    {
        if let Some(place) = find_kept(kept, slice) {
            return Ok(place);
        }
        let values = slice_lists(self.alloc, self.model, slice)?;
        let questions = Questions::new(self.alloc, self.model, self.prefs, slice, self.effort)?;
        kept.truncate(MOST_KEPT - 1);
        let place = kept.len();
        kept.push(KeptQuestions {
            slice,
            questions,
            values,
        })?;
        Ok(place)
    }

    // One if the partial row is extendable in the slice of the questions, and else none. Where the question
    // costs more than it may, that is the fault.
    pub(crate) fn count_row(
        &self,
        kept: &mut KeptQuestions<'a>,
        cells: &Cells,
    ) -> Result<u64, SearchFault>
        requires orders { OrdersValues self.now.model.now self.now.prefs.now }
        requires kept { IsFor self.now.model.now self.now.prefs.now self.now.effort kept.old }
        requires of { IsOfSlice self.now.model.now kept.old.slice cells.now }
        ensures count { IfOk result (λ count. count ≡ tally (is_found self.now.model.now self.now.prefs.now kept.old.slice) (cells.now ∷ [])) }
        ensures ends { Ends result (find (is_above self.now.model.now self.now.prefs.now kept.old.slice self.now.effort) (cells.now ∷ [])) }
        ensures kept { kept.new ≡ kept.old }
    {
        self.model.assert_invariant();
        match kept.questions.ask(cells) {
            Answer::Yes => Ok(1),
            Answer::No => Ok(0),
            Answer::Spent => Err(over_budget(self.alloc, cells)),
        }
    }
}

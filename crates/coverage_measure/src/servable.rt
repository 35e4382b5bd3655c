ghost use Rattle.std.specs.Prelude.{◌≡◌, ◌<◌, ◌≤◌, ◌^◌, true, [], All, IfOk, drop, find, length, min, slice_index_or, if◌then◌else◌};
ghost use Rattle.std.specs.List.{flat_map};
ghost use Rattle.cov_model.specs.believed.Meaning.{value_at};
ghost use Rattle.cov_model.specs.Preference.{OrdersValues};
ghost use Rattle.cov_model.specs.believed.Slices.{negative_values, slice_values};
ghost use Rattle.cov_model.specs.believed.Sound.{param_at};
ghost use Rattle.cov_model.specs.declared.slice.Slice.TheVariants.{Negative};
ghost use Rattle.definitions.specs.believed.Demand.{is_among, tuples_in, tuples_of};
ghost use Rattle.definitions.specs.believed.Figures.{all_rows, is_served, servable};
ghost use Rattle.definitions.specs.believed.Search.{constrained_params, first_over};
ghost use Rattle.definitions.specs.SliceRows.{IsSliceOf};
ghost use Rattle.feasibility.specs.Ends.{Ends};
ghost use Rattle.feasibility.specs.Tree.{no_values};
ghost use Rattle.tuple_index.specs.Places.{RisesFrom, has_part};
ghost use Rattle.tuple_index.specs.Plan.{plan_of, set_at};
ghost use Rattle.coverage_measure.specs.Asking.{IsBefore, IsFor, is_above, is_found, tally, with_values};

use crate::asking::{Asking, KeptQuestions};
use cov_model::{Cells, ParamNo, Slice, TestModel, ValueNo};
use feasibility::SearchFault;
use tuple_index::Plan;

// How many of the values of a parameter are tried, and for how many of them each of these stands. All give the
// same where no constraint names the parameter, so then the first stands for all.
fn values_tried(kept: &KeptQuestions<'_>, p: ParamNo) -> (usize, u64)
    requires { p < length kept.now.values }
    ensures tried { result.0 ≡ (if is_among (constrained_params kept.now.questions.model) p then length (slice_index_or kept.now.values p [])
        else min (length (slice_index_or kept.now.values p [])) 1) }
    ensures each { result.1 ≡ (if is_among (constrained_params kept.now.questions.model) p then 1 else length (slice_index_or kept.now.values p [])) }
{
    let count = kept.values.list(p as usize).len();
    if kept.questions.is_constrained(p) {
        return (count, 1);
    }
    (count.min(1), count as u64)
}

// Whether a value is negative.
fn is_negative(model: &TestModel, p: ParamNo, v: ValueNo) -> bool
    requires parameter { p < length model.now.params }
    requires value { v < length (param_at model.now.params p).values }
    ensures { result ≡ (value_at model.now p v).negative }
{
    let param = &model.params().as_slice()[p as usize];
    param.values.as_slice()[v as usize].negative
}

impl<'a> Asking<'a> {
    // How many of the tuples of a set in the slice of the questions some row serves, of those that the cells lead
    // to when the members from a place on get values too. Ends at the first of them that costs more than it may.
    fn count_from(
        &self,
        kept: &mut KeptQuestions<'a>,
        members: &[ParamNo],
        place: usize,
        cells: &mut Cells,
    ) -> Result<u64, SearchFault>
        requires orders { OrdersValues self.now.model.now self.now.prefs.now }
        requires kept { IsFor self.now.model.now self.now.prefs.now self.now.effort kept.old }
        requires place { place ≤ length members.now }
        requires before { IsBefore self.now.model.now kept.old.slice (drop place members.now) cells.old }
        requires few { length (with_values (slice_values self.now.model.now kept.old.slice) (drop place members.now) cells.old) < 2 ^ 32 }
        ensures count { IfOk result (λ count. count ≡ tally (is_found self.now.model.now self.now.prefs.now kept.old.slice)
            (with_values (slice_values self.now.model.now kept.old.slice) (drop place members.now) cells.old)) }
        ensures ends { Ends result (find (is_above self.now.model.now self.now.prefs.now kept.old.slice self.now.effort)
            (with_values (slice_values self.now.model.now kept.old.slice) (drop place members.now) cells.old)) }
        ensures cells { IfOk result (λ _. cells.new ≡ cells.old) }
        ensures kept { kept.new ≡ kept.old }
    {
        if place == members.len() {
            return self.count_row(kept, cells);
        }
        let p = members[place];
        let (tried, each) = values_tried(kept, p);
        let mut count = 0;
        for i in 0..tried {
            let v = kept.values.list(p as usize)[i];
            cells.set_cell(p, v);
            count += each * self.count_from(kept, members, place + 1, cells)?;
            cells.clear_cell(p);
        }
        Ok(count)
    }

    // How many of the demanded tuples of a set in a slice some row of the model serves. The cells have no value,
    // and after a count have none again.
    fn count_in(
        &self,
        kept: &mut Vec<KeptQuestions<'a>>,
        members: &[ParamNo],
        slice: Slice,
        cells: &mut Cells,
    ) -> Result<u64, SearchFault>
        requires orders { OrdersValues self.now.model.now self.now.prefs.now }
        requires kept { All (IsFor self.now.model.now self.now.prefs.now self.now.effort) kept.old.items }
        requires slice { IsSliceOf self.now.model.now slice }
        requires part { has_part members.now slice ≡ true }
        requires rising { RisesFrom 0 (length self.now.model.now.params) members.now }
        requires few { length (tuples_of self.now.model.now members.now) < 2 ^ 32 }
        requires cells { cells.old ≡ no_values self.now.model.now }
        ensures count { IfOk result (λ count. count ≡ tally (is_served self.now.model.now (all_rows self.now.model.now)) (tuples_in self.now.model.now members.now slice)) }
        ensures ends { Ends result (first_over self.now.model.now self.now.prefs.now self.now.effort (tuples_in self.now.model.now members.now slice)) }
        ensures cells { IfOk result (λ _. cells.new ≡ cells.old) }
        ensures kept { All (IsFor self.now.model.now self.now.prefs.now self.now.effort) kept.new.items }
    {
        self.model.assert_invariant();
        let place = self.place_of(kept, slice)?;
        self.count_from(&mut kept[place], members, 0, cells)
    }

    // The same of those with a negative value of this member.
    fn count_negative(
        &self,
        kept: &mut Vec<KeptQuestions<'a>>,
        members: &[ParamNo],
        q: ParamNo,
        cells: &mut Cells,
    ) -> Result<u64, SearchFault>
        requires orders { OrdersValues self.now.model.now self.now.prefs.now }
        requires kept { All (IsFor self.now.model.now self.now.prefs.now self.now.effort) kept.old.items }
        requires member { is_among members.now q ≡ true }
        requires rising { RisesFrom 0 (length self.now.model.now.params) members.now }
        requires few { length (tuples_of self.now.model.now members.now) < 2 ^ 32 }
        requires cells { cells.old ≡ no_values self.now.model.now }
        ensures count { IfOk result (λ count. count ≡ tally (is_served self.now.model.now (all_rows self.now.model.now))
            (flat_map (λ v. tuples_in self.now.model.now members.now (Negative q v)) (negative_values self.now.model.now q))) }
        ensures ends { Ends result (first_over self.now.model.now self.now.prefs.now self.now.effort
            (flat_map (λ v. tuples_in self.now.model.now members.now (Negative q v)) (negative_values self.now.model.now q))) }
        ensures cells { IfOk result (λ _. cells.new ≡ cells.old) }
        ensures kept { All (IsFor self.now.model.now self.now.prefs.now self.now.effort) kept.new.items }
    {
        let values = self.model.params().as_slice()[q as usize].values.len() as ValueNo;
        let mut count = 0;
        for v in 0..values {
            if is_negative(self.model, q, v) {
                count += self.count_in(kept, members, Slice::Negative(q, v), cells)?;
            }
        }
        Ok(count)
    }
}

// How many of the demanded tuples of a set some row of the model serves.
pub(crate) fn count_servable<'a>(
    asking: &Asking<'a>,
    kept: &mut Vec<KeptQuestions<'a>>,
    plan: &Plan,
    set: u32,
) -> Result<u32, SearchFault>
    requires orders { OrdersValues asking.now.model.now asking.now.prefs.now }
    requires kept { All (IsFor asking.now.model.now asking.now.prefs.now asking.now.effort) kept.old.items }
    requires plan { plan.now ≡ plan_of asking.now.model.now }
    requires set { set < length plan.now.sets }
    ensures count { IfOk result (λ count. count ≡ servable asking.now.model.now (set_at plan.now set)) }
    ensures ends { Ends result (first_over asking.now.model.now asking.now.prefs.now asking.now.effort (tuples_of asking.now.model.now (set_at plan.now set))) }
    ensures kept { All (IsFor asking.now.model.now asking.now.prefs.now asking.now.effort) kept.new.items }
{
    asking.model.assert_invariant();
    plan.assert_invariant();
    let members = plan.members(set);
    let mut cells = Cells::empty(asking.alloc, asking.model.params().len())?;
    let positive = asking.count_in(kept, members, Slice::Positive, &mut cells)?;
    let mut negative = 0;
    for q in members {
        negative += asking.count_negative(kept, members, *q, &mut cells)?;
    }
    Ok((positive + negative) as u32)
}

ghost use Rattle.std.specs.Prelude.{◌≡◌, ◌+◌, ◌*◌, ◌^◌, ◌<◌, ◌≤◌, ℕ, List, Option, if◌then◌else◌};
ghost use Rattle.std.specs.Prelude.{take, drop, length, map, sum, sum_by};
ghost use Rattle.std.specs.List.{filter};
ghost use Rattle.cov_model.specs.believed.Meaning.{value_at};
ghost use Rattle.cov_model.specs.believed.Slices.{negative_values};
ghost use Rattle.cov_model.specs.believed.Sound.{param_at};
ghost use Rattle.cov_model.specs.declared.slice.Slice.TheVariants.{Negative};
ghost use Rattle.definitions.specs.SliceRows.{IsSliceOf};
ghost use Rattle.shorter_suites.specs.believed.Bounds.{least_needed, most_served, served_in};
ghost use Rattle.suite_shrink.specs.Coverage.{AreMarksOf};
ghost use Rattle.tuple_index.specs.Plan.{plan_of, set_at};

use cov_model::{ParamNo, Slice, TestModel, ValueNo};
use shared_marks::Bits;
use tuple_index::Plan;

// How many of so many places from one on are marked.
fn count_marked(marks: &Bits, from: u32, count: u32) -> u32
    requires within { from + count ≤ length marks.now }
    requires few { length marks.now ≤ 2 ^ 26 }
    ensures count { result ≡ length (filter (λ mark. mark) (take count (drop from marks.now))) }
    ensures most { result ≤ count }
{
    let mut marked = 0;
    for i in 0..count {
        if marks.has(from + i) {
            marked += 1;
        }
    }
    marked
}

// How many of the demanded tuples of a set in a slice are marked as served.
fn served_in(model: &TestModel, plan: &Plan, marks: &Bits, slice: Slice, set: u32) -> u32
    requires plan { plan.now ≡ plan_of model.now }
    requires long { length marks.now ≡ sum plan.now.sizes }
    requires slice { IsSliceOf model.now slice }
    requires set { set < length plan.now.sets }
    ensures count { (rows : List (List (Option ℕ))) → AreMarksOf model.now rows marks.now
        → result ≡ served_in model.now rows slice (set_at plan.now set) }
    ensures few { result ≤ 2 ^ 26 }
{
    let _ = model;
    plan.assert_invariant();
    let (first, count) = plan.slice_ranks(set, slice);
    count_marked(marks, plan.base(set) + first, count)
}

// The greatest number of demanded tuples of one set in a slice that are marked as served.
fn most_served(model: &TestModel, plan: &Plan, marks: &Bits, slice: Slice) -> u32
    requires plan { plan.now ≡ plan_of model.now }
    requires long { length marks.now ≡ sum plan.now.sizes }
    requires slice { IsSliceOf model.now slice }
    ensures count { (rows : List (List (Option ℕ))) → AreMarksOf model.now rows marks.now
        → result ≡ most_served model.now rows slice }
    ensures few { result ≤ 2 ^ 26 }
{
    let mut most: u32 = 0;
    for set in 0..plan.set_count() {
        most = most.max(served_in(model, plan, marks, slice, set));
    }
    most
}

// The same in the slice of a value, if the value is negative, and else 0.
fn value_least(model: &TestModel, plan: &Plan, marks: &Bits, p: ParamNo, v: ValueNo) -> u32
    requires plan { plan.now ≡ plan_of model.now }
    requires long { length marks.now ≡ sum plan.now.sizes }
    requires param { p < length model.now.params }
    requires value { v < length (param_at model.now.params p).values }
    ensures count { (rows : List (List (Option ℕ))) → AreMarksOf model.now rows marks.now
        → result ≡ (if (value_at model.now p v).negative then most_served model.now rows (Negative p v)
        else 0) }
    ensures few { result ≤ 2 ^ 26 }
{
    if !model.is_negative(p, v) {
        return 0;
    }
    most_served(model, plan, marks, Slice::Negative(p, v))
}

// Its sum over the values of a parameter.
fn negative_least(model: &TestModel, plan: &Plan, marks: &Bits, p: ParamNo) -> u64
    requires plan { plan.now ≡ plan_of model.now }
    requires long { length marks.now ≡ sum plan.now.sizes }
    requires param { p < length model.now.params }
    ensures count { (rows : List (List (Option ℕ))) → AreMarksOf model.now rows marks.now
        → result ≡ sum_by (most_served model.now rows)
        (map (λ v. Negative p v) (negative_values model.now p)) }
    ensures few { result ≤ 2 ^ 16 * 2 ^ 26 }
{
    let mut least: u64 = 0;
    for v in 0..model.value_count(p) {
        least += u64::from(value_least(model, plan, marks, p, v));
    }
    least
}

// How many rows any suite needs that serves the demanded tuples that are marked as served.
pub(crate) fn least_needed(model: &TestModel, plan: &Plan, marks: &Bits) -> u64
    requires plan { plan.now ≡ plan_of model.now }
    requires long { length marks.now ≡ sum plan.now.sizes }
    ensures { (rows : List (List (Option ℕ))) → AreMarksOf model.now rows marks.now
        → result ≡ least_needed model.now rows }
{
    model.assert_invariant();
    let mut least = u64::from(most_served(model, plan, marks, Slice::Positive));
    for p in 0..model.params().len() as ParamNo {
        least += negative_least(model, plan, marks, p);
    }
    least
}

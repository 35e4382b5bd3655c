ghost use Rattle.std.specs.Prelude.{◌≡◌, ◌≢◌, ◌<◌, ◌≤◌, ℕ, All, IfOk, OnOk, MatchOption, length, map};
ghost use Rattle.std.specs.List.{count_by};
ghost use Rattle.std.specs.List.Sorted.{IsStrictlySortedBy};
ghost use Rattle.std.specs.Ordering.{nat_cmp};
ghost use Rattle.std.specs.Cmp.Lexicographic.{slice_cmp};
ghost use Rattle.cov_model.specs.believed.Meaning.{value_at};
ghost use Rattle.definitions.specs.believed.Demand.{demanded_tuples};
ghost use Rattle.cov_model.specs.believed.Tuples.{cells_of};
ghost use Rattle.refutation.specs.Checking.{AreOfModel};
ghost use Rattle.tuple_index.specs.Plan.{plan_of, set_at};
ghost use Rattle.proof_check.specs.Left.{AreLeft, Clears, IsPlaceOf, LacksPlace};

use bit_table::BitTable;
use cov_model::{ParamNo, TestModel, Tuple, ValueNo};
use refutation::Omissions;
use shared_marks::count_tuples;
use smallvec::SmallVec;
use std::alloc::Global;
use std::cmp::Ordering;
use tuple_index::Plan;
use value_text::NoMemory;

// Where a demanded tuple stands: the number of its set, and its place among all demanded tuples.
#[derive(Drop, Clone, Copy)]
struct DemandedPlace {
    set: u32,
    place: u32,
}

// The parameters of a tuple.
fn params_of(alloc: Global, tuple: &Tuple) -> Result<SmallVec<ParamNo, 8>, NoMemory>
    ensures { IfOk result (λ params. params.items ≡ map (λ pair. pair.0) tuple.now) }
{
    let mut params = SmallVec::new(alloc);
    for pair in tuple.as_slice() {
        params.push(pair.0)?;
    }
    Ok(params)
}

// Their values.
fn values_of(alloc: Global, tuple: &Tuple) -> Result<SmallVec<ValueNo, 8>, NoMemory>
    ensures { IfOk result (λ values. values.items ≡ map (λ pair. pair.1) tuple.now) }
{
    let mut values = SmallVec::new(alloc);
    for pair in tuple.as_slice() {
        values.push(pair.1)?;
    }
    Ok(values)
}

// How many values of a tuple are negative.
fn count_negatives(model: &TestModel, tuple: &Tuple) -> usize
    requires { AreOfModel model.now tuple.now }
    ensures { result ≡ count_by (λ pair. (value_at model.now pair.0 pair.1).negative) tuple.now }
{
    let mut count = 0;
    for pair in tuple.as_slice() {
        if model.is_negative(pair.0, pair.1) {
            count += 1;
        }
    }
    count
}

// The demanded set of these parameters. The sets are in lexicographic order.
fn find_set(plan: &Plan, params: &[ParamNo]) -> Option<u32>
    requires { IsStrictlySortedBy (slice_cmp nat_cmp) plan.now.sets }
    ensures { MatchOption result ((set : ℕ) → set < length plan.now.sets → set_at plan.now set ≢ params.now)
        (λ set. (set < length plan.now.sets) × (set_at plan.now set ≡ params.now)) }
{
    let mut low = 0;
    let mut high = plan.set_count();
    while low < high {
        let middle = low + (high - low) / 2;
        match plan.members(middle).cmp(params) {
            Ordering::Equal => return Some(middle),
            Ordering::Less => low = middle + 1,
            Ordering::Greater => high = middle,
        }
    }
    None
}

// The same, which is looked for first at the number of a set that may be it.
fn find_near(plan: &Plan, params: &[ParamNo], near: u32) -> Option<u32>
    requires { IsStrictlySortedBy (slice_cmp nat_cmp) plan.now.sets }
    ensures { MatchOption result ((set : ℕ) → set < length plan.now.sets → set_at plan.now set ≢ params.now)
        (λ set. (set < length plan.now.sets) × (set_at plan.now set ≡ params.now)) }
{
    if near < plan.set_count() && plan.members(near) == params {
        return Some(near);
    }
    find_set(plan, params)
}

// The place of a tuple among the demanded ones, if it is one of them. A demanded tuple has at most one
// negative value. Its set is looked for near the one of this number.
fn place_of(
    alloc: Global,
    model: &TestModel,
    plan: &Plan,
    tuple: &Tuple,
    near: u32,
) -> Result<Option<DemandedPlace>, NoMemory>
    requires plan { plan.now ≡ plan_of model.now }
    requires of_model { AreOfModel model.now tuple.now }
    ensures { IfOk result (λ found. MatchOption found (LacksPlace model.now (cells_of (length model.now.params) tuple.now))
        (λ at. IsPlaceOf model.now (cells_of (length model.now.params) tuple.now) at.place)) }
{
    plan.assert_invariant();
    // brings into the proof that the parameters rise
    let _pairs = tuple.as_slice();
    let params = params_of(alloc, tuple)?;
    let Some(set) = find_near(plan, params.as_slice(), near) else {
        return Ok(None);
    };
    if count_negatives(model, tuple) > 1 {
        return Ok(None);
    }
    let values = values_of(alloc, tuple)?;
    let place = plan.base(set) + plan.rank(set, values.as_slice());
    Ok(Some(DemandedPlace { set, place }))
}

// Takes away the mark of an omitted tuple, if it is demanded. Its set is looked for near the one of this
// number; the answer is its own number, near which the next one may be.
fn clear_one(
    alloc: Global,
    model: &TestModel,
    plan: &Plan,
    tuple: &Tuple,
    near: u32,
    left: &mut BitTable,
) -> Result<u32, NoMemory>
    requires plan { plan.now ≡ plan_of model.now }
    requires of_model { AreOfModel model.now tuple.now }
    requires long { length left.old ≡ length (demanded_tuples model.now) }
    ensures { OnOk result (Clears model.now (cells_of (length model.now.params) tuple.now) left.old left.new) }
{
    let Some(found) = place_of(alloc, model, plan, tuple, near)? else {
        return Ok(near);
    };
    left.clear(found.place);
    Ok(found.set)
}

// Marks on the demanded tuples, at the place of each that no omission of a proof lists. The place of a tuple
// is the base of its set plus its rank. Takes memory for the marks, and for the parameters and values of one
// tuple.
pub(crate) fn mark_unlisted(
    alloc: Global,
    model: &TestModel,
    plan: &Plan,
    proof: &Omissions,
) -> Result<BitTable, NoMemory>
    requires plan { plan.now ≡ plan_of model.now }
    requires of_model { All (λ omission. AreOfModel model.now omission.tuple) proof.now.omissions }
    ensures { IfOk result (AreLeft model.now proof.now.omissions) }
{
    let mut left = BitTable::all_set(alloc, count_tuples(plan))?;
    // the omissions of a set mostly stand one after another
    let mut near = 0;
    for omission in proof.as_slice() {
        near = clear_one(alloc, model, plan, &omission.tuple, near, &mut left)?;
    }
    Ok(left)
}

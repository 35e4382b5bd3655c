ghost use Rattle.std.specs.Prelude.{◌≡◌, ◌≤◌, IsPermutation, length, map, slice_index, IfOk, OnOk};
ghost use Rattle.std.specs.List.{range_with_len};
ghost use Rattle.cov_model.specs.believed.Preference.{by_falling_weight};
ghost use Rattle.cov_model.specs.believed.Valid.{param_numbers};
ghost use Rattle.definitions.specs.believed.Completion.{column_order};
ghost use Rattle.definitions.specs.SliceRows.{IsSliceOf};
ghost use Rattle.tuple_index.specs.Places.{values_in};
ghost use Rattle.tuple_index.specs.Plan.{plan_of};

use cov_model::{ParamNo, Slice, TestModel};
use std::alloc::Global;
use std::cmp::Reverse;
use tuple_index::Plan;
use value_text::NoMemory;

// The number of values that each parameter has in a slice.
fn value_counts(
    alloc: Global,
    plan: &Plan,
    slice: Slice,
    count: usize,
) -> Result<Vec<u64>, NoMemory>
    requires exist { count ≤ length plan.now.positives }
    requires few { count ≤ 256 }
    ensures { IfOk result (λ counts. counts.items ≡ map (λ p. length (values_in plan.now slice p)) (range_with_len 0 count)) }
{
    let mut counts = Vec::new(alloc);
    for p in 0..count {
        counts.push(plan.value_count(p as ParamNo, slice))?;
    }
    Ok(counts)
}

// The number of a parameter's values.
fn count_of(counts: &[u64], p: ParamNo) -> u64
    ensures { result ≡ slice_index counts.now p }
{
    match counts.get(p as usize) {
        Some(count) => *count,
        None => 0,
    }
}

// Sorts by falling number of values.
fn sort_by_count(counts: &[u64], order: &mut Vec<ParamNo>) -> Result<(), NoMemory>
    ensures sorted { OnOk result (order.new.items ≡ by_falling_weight (λ p. slice_index counts.now p) order.old.items) }
    ensures each { IsPermutation order.old.items order.new.items }
{
    let key = |p: &ParamNo| -> Reverse<u64>
        ensures { result ≡ record { 0 = slice_index counts.entry.now p.now } }
    { Reverse(count_of(counts, *p)) };
    order.sort_by_key(key)?;
    Ok(())
}

// The parameters in declared order.
fn declared(alloc: Global, model: &TestModel) -> Result<Vec<ParamNo>, NoMemory>
    ensures { IfOk result (λ order. order.items ≡ param_numbers model.now) }
{
    let count = model.params().len() as ParamNo;
    let order = (0..count).collect::<Vec<ParamNo>>(alloc)?;
    Ok(order)
}

// The column order of a slice: the parameters by falling number of their values there, those of one
// number in declared order.
pub(crate) fn column_order(
    alloc: Global,
    model: &TestModel,
    plan: &Plan,
    slice: Slice,
) -> Result<Vec<ParamNo>, NoMemory>
    requires plan { plan.now ≡ plan_of model.now }
    requires slice { IsSliceOf model.now slice }
    ensures value { IfOk result (λ order. order.items ≡ column_order model.now slice) }
    ensures each { IfOk result (λ order. IsPermutation (param_numbers model.now) order.items) }
{
    let counts = value_counts(alloc, plan, slice, model.params().len())?;
    let mut order = declared(alloc, model)?;
    sort_by_count(&counts, &mut order)?;
    Ok(order)
}

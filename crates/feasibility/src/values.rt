ghost use Rattle.std.specs.Prelude.{◌≡◌, ◌<◌, [], ◌∷◌, ◌++◌, length, slice_index_or, IfOk, OnOk};
ghost use Rattle.cov_model.specs.Preference.{OrdersValues};
ghost use Rattle.cov_model.specs.believed.Slices.{positive_values, slice_values};
ghost use Rattle.cov_model.specs.believed.Sound.{param_at};
ghost use Rattle.definitions.specs.believed.Completion.{preferred_values};
ghost use Rattle.definitions.specs.believed.Demand.{is_among};
ghost use Rattle.definitions.specs.SliceRows.{IsSliceOf};
ghost use Rattle.definitions.specs.believed.Completion.{preferred_at};

use cov_model::{ParamNo, Prefs, Slice, TestModel, ValueNo};
use packed_lists::PackedLists;
use std::alloc::Global;
use value_text::NoMemory;

// Puts a list behind the others.
pub(crate) fn put_list(lists: &mut PackedLists, list: Vec<u16>) -> Result<(), NoMemory>
    ensures { OnOk result (lists.new ≡ lists.old ++ list.items ∷ []) }
{
    lists.push(list.as_slice())
}

// Whether a value of a parameter is one of the slice.
fn is_in_slice(model: &TestModel, slice: Slice, p: ParamNo, v: ValueNo) -> bool
    requires slice { IsSliceOf model.now slice }
    requires parameter { p < length model.now.params }
    requires value { v < length (param_at model.now.params p).values }
    ensures { result ≡ is_among (slice_index_or (slice_values model.now slice) p []) v }
{
    match slice {
        Slice::Positive => !model.is_negative(p, v),
        Slice::Negative(fixed, w) => {
            if fixed == p {
                return w == v;
            }
            !model.is_negative(p, v)
        }
    }
}

// A parameter's values in the slice, in preference order.
fn preferred(
    alloc: Global,
    model: &TestModel,
    prefs: &Prefs,
    slice: Slice,
    p: ParamNo,
) -> Result<Vec<ValueNo>, NoMemory>
    requires slice { IsSliceOf model.now slice }
    requires parameter { p < length model.now.params }
    requires orders { OrdersValues model.now prefs.now }
    ensures { IfOk result (λ list. list.items ≡ preferred_at model.now prefs.now slice p) }
{
    let mut list = Vec::new(alloc);
    for v in prefs.of(p) {
        if is_in_slice(model, slice, p, *v) {
            list.push(*v)?;
        }
    }
    Ok(list)
}

// Each parameter's values in the slice, in preference order.
pub(crate) fn preferred_lists(
    alloc: Global,
    model: &TestModel,
    prefs: &Prefs,
    slice: Slice,
) -> Result<PackedLists, NoMemory>
    requires slice { IsSliceOf model.now slice }
    requires orders { OrdersValues model.now prefs.now }
    ensures { IfOk result (λ lists. lists ≡ preferred_values model.now prefs.now slice) }
{
    let count = model.params().len();
    let mut lists = PackedLists::new(alloc);
    for p in 0..count {
        let list = preferred(alloc, model, prefs, slice, p as ParamNo)?;
        put_list(&mut lists, list)?;
    }
    Ok(lists)
}

// The values of a parameter that aren't negative, in declared order.
fn positives(alloc: Global, model: &TestModel, p: ParamNo) -> Result<Vec<ValueNo>, NoMemory>
    requires { p < length model.now.params }
    ensures { IfOk result (λ list. list.items ≡ positive_values model.now p) }
{
    let count = model.value_count(p);
    let mut list = Vec::new(alloc);
    for v in 0..count {
        if !model.is_negative(p, v) {
            list.push(v)?;
        }
    }
    Ok(list)
}

// One value.
fn one_value(alloc: Global, v: ValueNo) -> Result<Vec<ValueNo>, NoMemory>
    ensures { IfOk result (λ list. list.items ≡ v ∷ []) }
{
    let mut list = Vec::new(alloc);
    list.push(v)?;
    Ok(list)
}

// A parameter's values in the slice, in declared order.
fn declared(
    alloc: Global,
    model: &TestModel,
    slice: Slice,
    p: ParamNo,
) -> Result<Vec<ValueNo>, NoMemory>
    requires { p < length model.now.params }
    ensures { IfOk result (λ list. list.items ≡ slice_index_or (slice_values model.now slice) p []) }
{
    match slice {
        Slice::Positive => positives(alloc, model, p),
        Slice::Negative(fixed, w) => {
            if fixed == p {
                return one_value(alloc, w);
            }
            positives(alloc, model, p)
        }
    }
}

/// Each parameter's values in a slice of the model, in declared order.
///
/// # Errors
///
/// `NoMemory` where there is no room.
pub fn slice_lists(alloc: Global, model: &TestModel, slice: Slice) -> Result<PackedLists, NoMemory>
    ensures { IfOk result (λ lists. lists ≡ slice_values model.now slice) }
{
    let count = model.params().len();
    let mut lists = PackedLists::new(alloc);
    for p in 0..count {
        let list = declared(alloc, model, slice, p as ParamNo)?;
        put_list(&mut lists, list)?;
    }
    Ok(lists)
}

ghost use Rattle.std.specs.Prelude.{◌≡◌, ◌<◌, ◌≤◌, ◌++◌, [], ◌∷◌, length, map, IfOk, OnOk};
ghost use Rattle.definitions.specs.believed.Demand.{is_among, rising};
ghost use Rattle.tuple_index.specs.Places.{rises_from};
ghost use Rattle.tuple_index.specs.Signs.{has_sign, values_of_sign};

use cov_model::{ParamNo, TestModel, Value, ValueNo};
use packed_lists::PackedLists;
use std::alloc::Global;
use value_text::NoMemory;

/// Whether a number is in a list.
pub fn is_listed(numbers: &[u16], n: u16) -> bool
    ensures { result ≡ is_among numbers.now n }
{
    numbers.iter().any(|k| *k == n)
}

// Whether the numbers rise and are below the count.
fn is_rising(numbers: &[u16], count: u16) -> bool
    ensures { result ≡ rises_from 0 count numbers.now }
{
    let mut least: u16 = 0;
    for n in numbers {
        if *n < least || *n >= count {
            return false;
        }
        least = *n + 1;
    }
    true
}

// The parameters that are in the list, in declared order.
fn listed_params(
    alloc: Global,
    model: &TestModel,
    choice: &[ParamNo],
) -> Result<Vec<ParamNo>, NoMemory>
    ensures { IfOk result (λ set. set.items ≡ rising model.now choice.now) }
{
    let count = model.params().len() as u16;
    let mut set = Vec::new(alloc);
    for p in 0..count {
        if is_listed(choice, p) {
            set.push(p)?;
        }
    }
    Ok(set)
}

/// Adds the parameters of a choice, rising and each once. Most choices are so already.
///
/// # Errors
///
/// `NoMemory` where there is no room for them.
pub fn push_rising(
    alloc: Global,
    model: &TestModel,
    choice: &[ParamNo],
    sets: &mut PackedLists,
) -> Result<(), NoMemory>
    ensures { OnOk result (sets.new ≡ sets.old ++ rising model.now choice.now ∷ []) }
{
    if is_rising(choice, model.params().len() as u16) {
        return sets.push(choice);
    }
    let set = listed_params(alloc, model, choice)?;
    sets.push(&set)
}

// Whether a value is negative, or is not.
fn is_of_sign(values: &[Value], v: ValueNo, negative: bool) -> bool
    requires { v < length values.now }
    ensures { result ≡ has_sign negative values.now v }
{
    if negative {
        values[v as usize].negative
    } else {
        !values[v as usize].negative
    }
}

/// The numbers of the values that are negative, or of those that aren't.
///
/// # Errors
///
/// `NoMemory` where there is no room for them.
pub fn values_of(alloc: Global, values: &[Value], negative: bool) -> Result<Vec<ValueNo>, NoMemory>
    requires { length values.now ≤ 4095 }
    ensures { IfOk result (λ numbers. numbers.items ≡ values_of_sign negative values.now) }
{
    let count = values.len() as u16;
    let mut numbers = Vec::new(alloc);
    for v in 0..count {
        if is_of_sign(values, v, negative) {
            numbers.push(v)?;
        }
    }
    Ok(numbers)
}

/// The numbers of the values of each parameter that are negative, or of those that aren't.
///
/// # Errors
///
/// `NoMemory` where there is no room for them.
pub fn values_by_sign(
    alloc: Global,
    model: &TestModel,
    negative: bool,
) -> Result<Vec<Vec<ValueNo>>, NoMemory>
    ensures { IfOk result (λ lists. map (λ list. list.items) lists.items ≡ map (λ param. values_of_sign negative param.values) model.now.params) }
{
    let mut lists = Vec::new(alloc);
    for param in model.params().as_slice() {
        let list = values_of(alloc, param.values.as_slice(), negative)?;
        lists.push(list)?;
    }
    Ok(lists)
}

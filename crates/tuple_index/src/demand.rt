ghost use Rattle.std.specs.Prelude.{◌≡◌, ◌<◌, ◌++◌, [], ◌∷◌, map, min, not, length, slice_index_or, IfOk, OnOk};
ghost use Rattle.std.specs.List.{filter, flat_map, list_any, range_with_len};
ghost use Rattle.cov_model.specs.believed.Valid.{param_numbers};
ghost use Rattle.definitions.specs.believed.Demand.{choose, is_among, rising, singles, unions, units};

use crate::choices::{Ways, cross, ways_to_choose};
use crate::values::{is_listed, push_rising};
use cov_model::{NoList, ParamNo, TestModel};
use packed_lists::PackedLists;
use std::alloc::Global;
use value_text::{NoMemory, OwnedList};

/// Whether a parameter is in no sub-model.
pub fn is_single(model: &TestModel, p: ParamNo) -> bool
    ensures { result ≡ not (list_any (λ sub. is_among sub.members p) model.now.demand.subs) }
{
    for sub in model.demand().subs.as_slice() {
        if is_listed(sub.members.as_slice(), p) {
            return false;
        }
    }
    true
}

// The list of one way that has this parameter alone.
fn single_way(alloc: Global, p: ParamNo) -> Result<Ways<u16>, NoMemory>
    ensures { IfOk result (λ ways. ways ≡ (p ∷ []) ∷ []) }
{
    let mut way = OwnedList::new(alloc);
    way.push(p)?;
    let mut ways = OwnedList::new(alloc);
    ways.push(way)?;
    Ok(ways)
}

// Adds the single parameters, each as a unit.
fn push_singles(
    alloc: Global,
    model: &TestModel,
    into: &mut OwnedList<Ways<u16>>,
) -> Result<(), NoMemory>
    ensures { OnOk result (into.new ≡ into.old ++ map (λ p. (p ∷ []) ∷ []) (singles model.now)) }
{
    let count = model.params().len() as u16;
    for p in 0..count {
        if is_single(model, p) {
            into.push(single_way(alloc, p)?)?;
        }
    }
    Ok(())
}

/// The units of a model, each as all ways to take parameters of it.
///
/// # Errors
///
/// `NoMemory` where there is no room for them.
pub fn units_of(alloc: Global, model: &TestModel) -> Result<OwnedList<Ways<u16>>, NoMemory>
    ensures { IfOk result (λ all. all ≡ units model.now) }
{
    let mut all = OwnedList::new(alloc);
    for sub in model.demand().subs.as_slice() {
        all.push(ways_to_choose(alloc, sub.order, sub.members.as_slice())?)?;
    }
    push_singles(alloc, model, &mut all)?;
    Ok(all)
}

// The unions of one way of each of the units taken.
fn unions_of(alloc: Global, units: &[Ways<u16>], taken: &[usize]) -> Result<Ways<u16>, NoMemory>
    ensures { IfOk result (λ sets. sets ≡ unions (map (λ u. slice_index_or units.now u []) taken.now)) }
{
    match taken {
        [] => {
            let mut sets = OwnedList::new(alloc);
            sets.push(OwnedList::new(alloc))?;
            Ok(sets)
        }
        [first, rest @ ..] => {
            let others = unions_of(alloc, units, rest)?;
            match units.get(*first) {
                Some(ways) => cross(alloc, ways.as_slice(), others.as_slice()),
                None => Ok(OwnedList::new(alloc)),
            }
        }
    }
}

// The numbers from 0 on.
fn numbers_below(alloc: Global, count: usize) -> Result<Vec<usize>, NoMemory>
    ensures { IfOk result (λ numbers. numbers.items ≡ range_with_len 0 count) }
{
    Ok((0..count).collect::<Vec<usize>>(alloc)?)
}

// Adds the sets of these choices.
fn push_each(
    alloc: Global,
    model: &TestModel,
    choices: &[NoList],
    sets: &mut PackedLists,
) -> Result<(), NoMemory>
    ensures { OnOk result (sets.new ≡ sets.old ++ map (rising model.now) choices.now) }
{
    for choice in choices {
        push_rising(alloc, model, choice.as_slice(), sets)?;
    }
    Ok(())
}

/// Adds the sets of the unions of one way of each of any k units.
///
/// # Errors
///
/// `NoMemory` where there is no room for them.
pub fn push_unions(
    alloc: Global,
    model: &TestModel,
    units: &[Ways<u16>],
    k: u32,
    sets: &mut PackedLists,
) -> Result<(), NoMemory>
    ensures { OnOk result (sets.new ≡ sets.old ++ map (rising model.now) (flat_map unions (choose k units.now))) }
{
    let numbers = numbers_below(alloc, units.len())?;
    let picks = ways_to_choose(alloc, k, numbers.as_slice())?;
    for pick in picks.as_slice() {
        let unions = unions_of(alloc, units, pick.as_slice())?;
        push_each(alloc, model, unions.as_slice(), sets)?;
    }
    Ok(())
}

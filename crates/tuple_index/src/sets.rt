ghost use Rattle.std.specs.Prelude.{◌≡◌, ◌++◌, [], ◌∷◌, map, min, length, IfOk, OnOk};
ghost use Rattle.std.specs.List.{range_with_len};
ghost use Rattle.cov_model.specs.believed.Valid.{param_numbers};
ghost use Rattle.definitions.specs.believed.Demand.{choose, demanded_sets, rising};
ghost use Rattle.tuple_index.specs.Choices.{subsets, unit_choices};

use crate::demand::{push_unions, units_of};
use crate::order::ordered;
use crate::values::push_rising;
use cov_model::{Group, ParamNo, TestModel};
use packed_lists::PackedLists;
use std::alloc::Global;
use value_text::NoMemory;

// Adds the sets of those taken and any k of the items. No choice has a piece of memory of its own:
// there are up to 2^20 of them.
fn push_choices(
    alloc: Global,
    model: &TestModel,
    k: u32,
    items: &[ParamNo],
    taken: &mut Vec<ParamNo>,
    sets: &mut PackedLists,
) -> Result<(), NoMemory>
    ensures taken { OnOk result (taken.new.items ≡ taken.old.items) }
    ensures sets { OnOk result (sets.new ≡ sets.old ++ map (λ rest. rising model.now (taken.old.items ++ rest)) (choose k items.now)) }
{
    if k == 0 {
        return push_rising(alloc, model, taken.as_slice(), sets);
    }
    let last = items.len().saturating_sub(k as usize - 1);
    for i in 0..last {
        taken.push(items[i])?;
        push_choices(alloc, model, k - 1, &items[i + 1..], taken, sets)?;
        taken.pop();
    }
    Ok(())
}

// The numbers of the parameters.
fn params_of(alloc: Global, model: &TestModel) -> Result<Vec<ParamNo>, NoMemory>
    ensures { IfOk result (λ params. params.items ≡ param_numbers model.now) }
{
    let count = model.params().len() as u16;
    Ok((0..count).collect::<Vec<ParamNo>>(alloc)?)
}

// Adds the sets of any as many parameters as the order says: where there is no sub-model, each
// parameter is a unit.
fn push_param_sets(alloc: Global, model: &TestModel, sets: &mut PackedLists) -> Result<(), NoMemory>
    requires { model.now.demand.subs ≡ [] }
    ensures { OnOk result (sets.new ≡ sets.old ++ map (rising model.now) (unit_choices model.now)) }
{
    let params = params_of(alloc, model)?;
    let count = params.len().min(model.demand().order as usize) as u32;
    push_choices(alloc, model, count, &params, &mut Vec::new(alloc), sets)
}

// Adds the sets of the choices of units.
fn push_unit_sets(alloc: Global, model: &TestModel, sets: &mut PackedLists) -> Result<(), NoMemory>
    ensures { OnOk result (sets.new ≡ sets.old ++ map (rising model.now) (unit_choices model.now)) }
{
    if model.demand().subs.is_empty() {
        return push_param_sets(alloc, model, sets);
    }
    let units = units_of(alloc, model)?;
    let count = units.len().min(model.demand().order as usize) as u32;
    push_unions(alloc, model, units.as_slice(), count, sets)
}

// Adds the sets of the subsets of each relation.
fn push_relations(
    alloc: Global,
    model: &TestModel,
    relations: &[Group],
    sets: &mut PackedLists,
) -> Result<(), NoMemory>
    ensures { OnOk result (sets.new ≡ sets.old ++ map (rising model.now) (subsets relations.now)) }
{
    for relation in relations {
        let members = relation.members.as_slice();
        push_choices(
            alloc,
            model,
            relation.order,
            members,
            &mut Vec::new(alloc),
            sets,
        )?;
    }
    Ok(())
}

/// The demanded sets of a model, in lexicographic order.
///
/// # Errors
///
/// `NoMemory` where there is no room for them.
pub fn sets_of(alloc: Global, model: &TestModel) -> Result<PackedLists, NoMemory>
    ensures { IfOk result (λ sets. sets ≡ demanded_sets model.now) }
{
    let mut sets = PackedLists::new(alloc);
    push_unit_sets(alloc, model, &mut sets)?;
    push_relations(alloc, model, model.demand().relations.as_slice(), &mut sets)?;
    ordered(alloc, sets)
}

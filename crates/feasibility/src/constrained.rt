ghost use Rattle.std.specs.Prelude.{◌≡◌, ◌<◌, ◌++◌, ◌∷◌, [], length, map, IfOk, OnOk};
ghost use Rattle.std.specs.List.{filter};
ghost use Rattle.cov_model.specs.Fits.{FitsModel};
ghost use Rattle.cov_model.specs.believed.Slices.{value_numbers};
ghost use Rattle.feasibility.specs.Live.{AreRules};
ghost use Rattle.feasibility.specs.Tree.{all_constrained, is_named, naming, no_values, undecided, undecided_by, undecided_on};

use crate::named::body_names;
use crate::values::put_list;
use compiled_rules::CompiledRules;
use cov_model::{Cells, ParamNo, TestModel, Truth, ValueNo};
use packed_lists::PackedLists;
use std::alloc::Global;
use value_text::NoMemory;

/// A parameter that constraints name, and for each of its values the numbers of those of them that
/// aren't known to hold where it alone has a value, this one.
#[derive(Drop)]
pub struct Constrained {
    /// The parameter.
    pub param: ParamNo,
    /// By each of its values the numbers of these constraints, in rising order.
    pub undecided: PackedLists,
}

// The numbers of the constraints that name the parameter.
fn naming(alloc: Global, model: &TestModel, p: ParamNo) -> Result<Vec<u16>, NoMemory>
    ensures { IfOk result (λ list. list.items ≡ naming model.now p) }
{
    let mut list = Vec::new(alloc);
    for rule in model.rules().as_slice() {
        if body_names(&rule.body, p) {
            list.push(rule.number as u16)?;
        }
    }
    Ok(list)
}

// Those of the constraints that aren't known to hold on the cells.
fn undecided_on(
    alloc: Global,
    rules: &CompiledRules,
    numbers: &[u16],
    cells: &Cells,
) -> Result<Vec<u16>, NoMemory>
    requires exist { AreRules rules.now numbers.now }
    requires fits { FitsModel rules.now cells.now }
    ensures { IfOk result (λ list. list.items ≡ undecided_on rules.now numbers.now cells.now) }
{
    let mut list = Vec::new(alloc);
    for number in numbers {
        if rules.truth(*number as u32, cells) != Truth::Yes {
            list.push(*number)?;
        }
    }
    Ok(list)
}

// For each value of a parameter the constraints that it alone leaves undecided, of those that name the
// parameter. The cells give no parameter a value, before and after.
fn undecided_lists(
    alloc: Global,
    rules: &CompiledRules,
    p: ParamNo,
    numbers: &[u16],
    cells: &mut Cells,
) -> Result<PackedLists, NoMemory>
    requires parameter { p < length rules.now.params }
    requires named { numbers.now ≡ naming rules.now p }
    requires none { cells.old ≡ no_values rules.now }
    ensures lists { IfOk result (λ lists. lists ≡ map (undecided rules.now p) (value_numbers rules.now p)) }
    ensures same { IfOk result (λ _. cells.new ≡ cells.old) }
{
    let count = rules.model().value_count(p);
    let mut lists = PackedLists::new(alloc);
    for v in 0..count {
        cells.set_cell(p, v);
        let list = undecided_on(alloc, rules, numbers, cells)?;
        put_list(&mut lists, list)?;
        cells.clear_cell(p);
    }
    Ok(lists)
}

// Puts a parameter behind the others, if a constraint names it. The cells give no parameter a value,
// before and after.
fn put_named(
    alloc: Global,
    rules: &CompiledRules,
    p: ParamNo,
    cells: &mut Cells,
    list: &mut Vec<Constrained>,
) -> Result<(), NoMemory>
    requires parameter { p < length rules.now.params }
    requires none { cells.old ≡ no_values rules.now }
    ensures list { OnOk result (list.new.items ≡ list.old.items ++ map (undecided_by rules.now) (filter (is_named rules.now) (p ∷ []))) }
    ensures same { OnOk result (cells.new ≡ cells.old) }
{
    let numbers = naming(alloc, rules.model(), p)?;
    if numbers.is_empty() {
        return Ok(());
    }
    let undecided = undecided_lists(alloc, rules, p, numbers.as_slice(), cells)?;
    list.push(Constrained {
        param: p,
        undecided,
    })?;
    Ok(())
}

// The parameters that constraints name, in declared order.
pub(crate) fn constrained_params(
    alloc: Global,
    rules: &CompiledRules,
) -> Result<Vec<Constrained>, NoMemory>
    ensures { IfOk result (λ list. list.items ≡ all_constrained rules.now) }
{
    let count = rules.model().params().len();
    let mut cells = Cells::empty(alloc, count)?;
    let mut list = Vec::new(alloc);
    for p in 0..count {
        put_named(alloc, rules, p as ParamNo, &mut cells, &mut list)?;
    }
    Ok(list)
}

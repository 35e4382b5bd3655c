ghost use Rattle.std.specs.Prelude.{◌≡◌, ◌+◌, ◌<◌, All, IfOk, OnOk};
ghost use Rattle.std.specs.Prelude.{length, map, slice_index_or};
ghost use Rattle.cov_model.specs.Fits.{FitsModel};
ghost use Rattle.definitions.specs.believed.Seeds.{distinct};
ghost use Rattle.shrink_search.specs.Fewer.{AreFewer};
ghost use Rattle.suite_shrink.specs.FirstRows.{AreFirst};

use cov_model::{Rows, TestModel};
use distinct_rows::RowSet;
use shrink_search::FewerRows;
use std::alloc::Global;
use value_text::NoMemory;

// The given rows that repeat no earlier one.
pub(crate) fn first_rows(
    alloc: Global,
    model: &TestModel,
    given: &Rows,
) -> Result<FewerRows, NoMemory>
    requires fits { All (FitsModel model.now) given.now }
    ensures rows { IfOk result (λ first. first.rows ≡ distinct given.now) }
    ensures origin { IfOk result (λ first.
        AreFewer model.now given.now first.numbers.items first.rows) }
{
    let mut known = RowSet::new(alloc);
    let mut first = FewerRows {
        numbers: Vec::new(alloc),
        rows: Rows::new(alloc),
    };
    for number in 0..given.len() {
        add_row(alloc, model, given, number, &mut known, &mut first)?;
    }
    Ok(first)
}

// Puts the given row of this number behind the others, unless it repeats one of them.
fn add_row(
    alloc: Global,
    model: &TestModel,
    given: &Rows,
    number: usize,
    known: &mut RowSet,
    first: &mut FewerRows,
) -> Result<(), NoMemory>
    requires fits { All (FitsModel model.now) given.now }
    requires number { number < length given.now }
    requires before { AreFirst model.now given.now number known.old first.old.numbers.items
        first.old.rows }
    ensures { OnOk result (AreFirst model.now given.now (number + 1) known.new
        first.new.numbers.items first.new.rows) }
{
    let _ = model;
    if !known.add(alloc, given.row(number))? {
        return Ok(());
    }
    first.rows.push(given.row(number))?;
    first.numbers.push(number)?;
    Ok(())
}

// The numbers of given rows, where these are the numbers of some of the first ones.
pub(crate) fn given_numbers(
    alloc: Global,
    first: &[usize],
    numbers: &[usize],
) -> Result<Vec<usize>, NoMemory>
    requires { All (λ number. number < length first.now) numbers.now }
    ensures { IfOk result (λ given.
        given.items ≡ map (λ number. slice_index_or first.now number 0) numbers.now) }
{
    let mut given = Vec::with_capacity(alloc, numbers.len())?;
    for number in numbers {
        given.push(first[*number])?;
    }
    Ok(given)
}

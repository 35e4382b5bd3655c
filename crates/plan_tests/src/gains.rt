//! The table of open tuples beside a plain list of them.

ghost use Rattle.std.specs.Prelude.{◌≡◌, ◌<◌, length};
ghost use Rattle.definitions.specs.SliceRows.{IsOfSlice};
ghost use Rattle.tuple_index.specs.Plan.{plan_of};

use crate::open_list::OpenList;
use cov_model::{Cells, ParamNo, Slice, TestModel, ValueNo};
use std::alloc::Global;
use test_models::{DISK, is_positive_row, model_of};
use tuple_index::Plan;
use uncovered_table::Uncovered;

// Makes a partial row without a value in a column. The turns spread the rows over the values, and leave
// some cells empty.
fn put_row(model: &TestModel, turn: u32, column: ParamNo, row: &mut Cells)
    requires turn { turn < 10000 }
    requires row { length row.old ≡ length model.now.params }
    ensures { length row.new ≡ length row.old }
{
    let count = model.params().len() as ParamNo;
    for p in 0..count {
        let choices = u32::from(model.value_count(p)) + 1;
        let value = (turn * 7 + turn / 6 + u32::from(p) * 5) % choices;
        if p != column && value + 1 < choices {
            row.set_cell(p, value as ValueNo);
        } else {
            row.clear_cell(p);
        }
    }
}

// Whether each value of a column has the gain that it has by the list.
fn has_gains(
    model: &TestModel,
    table: &Uncovered,
    list: &OpenList,
    row: &Cells,
    column: ParamNo,
) -> bool
    requires model { table.now.model ≡ model.now }
    requires column { column < length model.now.params }
    requires row { IsOfSlice table.now.model table.now.slice row.now }
{
    for value in 0..model.value_count(column) {
        if table.gain(row, column, value) as usize != list.gain(row, column, value) {
            return false;
        }
    }
    true
}

// Whether the gains in a row of this turn, which has no value in the column, are those of the list.
fn has_gains_in_turn(
    turn: u32,
    model: &TestModel,
    table: &Uncovered,
    list: &OpenList,
    row: &mut Cells,
    column: ParamNo,
) -> bool
    requires turn { turn < 10000 }
    requires model { table.now.model ≡ model.now }
    requires slice { table.now.slice ≡ Slice.Positive }
    requires column { column < length model.now.params }
    requires row { length row.old ≡ length model.now.params }
    ensures { length row.new ≡ length row.old }
{
    put_row(model, turn, column, row);
    is_positive_row(model, row) && has_gains(model, table, list, row, column)
}

// Closes what the row with this value in the column contains. Whether as many tuples as in the list are open then.
fn closes_alike(
    model: &TestModel,
    table: &mut Uncovered,
    list: &mut OpenList,
    row: &mut Cells,
    column: ParamNo,
    value: ValueNo,
) -> bool
    requires model { table.old.model ≡ model.now }
    requires slice { table.old.slice ≡ Slice.Positive }
    requires column { column < length model.now.params }
    requires row { column < length row.old }
    ensures model { table.new.model ≡ model.now }
    ensures slice { table.new.slice ≡ Slice.Positive }
{
    row.set_cell(column, value);
    if !is_positive_row(model, row) {
        return false;
    }
    table.close_row(row, column);
    list.close(row, column, value);
    table.open_count() as usize == list.len()
}

// Whether the gains in a row of this turn are those of the list, also once what the row with one of the values
// contains is closed. Every other column is made ready before.
fn has_turn(
    alloc: Global,
    turn: u32,
    model: &TestModel,
    table: &mut Uncovered,
    list: &mut OpenList,
    row: &mut Cells,
) -> bool
    requires turn { turn < 10000 }
    requires model { table.old.model ≡ model.now }
    requires slice { table.old.slice ≡ Slice.Positive }
    ensures model { table.new.model ≡ model.now }
    ensures slice { table.new.slice ≡ Slice.Positive }
{
    let column = (turn % 6) as ParamNo;
    if row.len() != model.params().len() || column as usize >= row.len() {
        return false;
    }
    if column % 2 == 0 && table.prepare(alloc, column).is_err() {
        return false;
    }
    let value = (turn / 6) as ValueNo % model.value_count(column).max(1);
    has_gains_in_turn(turn, model, table, list, row, column)
        && closes_alike(model, table, list, row, column, value)
}

// Whether each of hundreds of turns is as the list has it.
fn has_turns(
    alloc: Global,
    model: &TestModel,
    table: &mut Uncovered,
    list: &mut OpenList,
    row: &mut Cells,
) -> bool
    requires model { table.old.model ≡ model.now }
    requires slice { table.old.slice ≡ Slice.Positive }
{
    for turn in 0..600 {
        if !has_turn(alloc, turn, model, table, list, row) {
            return false;
        }
    }
    true
}

// How many tuples of the list are open before and after the turns; nothing where a turn isn't as the list has it, or
// memory was refused.
fn counts_beside(
    alloc: Global,
    model: &TestModel,
    table: &mut Uncovered,
    list: &mut OpenList,
) -> Option<(usize, usize)>
    requires model { table.old.model ≡ model.now }
    requires slice { table.old.slice ≡ Slice.Positive }
{
    let before = list.len();
    let Ok(mut row) = Cells::empty(alloc, 6) else {
        return None;
    };
    if has_turns(alloc, model, table, list, &mut row) {
        Some((before, list.len()))
    } else {
        None
    }
}

// The same for the list of the plan.
fn counts_in(
    alloc: Global,
    model: &TestModel,
    plan: &Plan,
    table: &mut Uncovered,
) -> Option<(usize, usize)>
    requires model { table.old.model ≡ model.now }
    requires slice { table.old.slice ≡ Slice.Positive }
{
    match OpenList::new(alloc, model, plan) {
        Ok(mut list) => counts_beside(alloc, model, table, &mut list),
        Err(_) => None,
    }
}

// The same for a table in which all is open.
fn counts_of(alloc: Global, model: &TestModel, plan: &Plan) -> Option<(usize, usize)>
    requires { plan.now ≡ plan_of model.now }
{
    match Uncovered::new(alloc, model, plan, Slice::Positive) {
        Ok(mut table) => counts_in(alloc, model, plan, &mut table),
        Err(_) => None,
    }
}

// The same for the plan of the model.
fn counts_of_model(alloc: Global, model: &TestModel) -> Option<(usize, usize)> {
    match Plan::new(alloc, model) {
        Ok(plan) => counts_of(alloc, model, &plan),
        Err(_) => None,
    }
}

// The same for the model of a text.
fn counts_of_text(alloc: Global, text: &str) -> Option<(usize, usize)> {
    match model_of(alloc, text) {
        Ok(model) => counts_of_model(alloc, &model),
        Err(_) => None,
    }
}

// Until most tuples of the model are closed.
#[test]
fn gains_are_plain_counts(rt: HostRuntime) {
    let counts = counts_of_text(rt.alloc(), DISK);
    assert!(rt;
        matches!(counts, Some((331, after)) if after < 80),
        "{counts:?}"
    );
}

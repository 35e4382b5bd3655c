//! The orders in which values are taken, the faults of rows, and a constraint that is compiled.

ghost use Rattle.std.specs.Prelude.{◌≡◌, true, All, IfOk, length};
ghost use Rattle.cov_model.specs.believed.Valid.{is_row};

use compiled_rules::CompiledRules;
use cov_model::{Cells, Prefs, RowWhy, Rows, TestModel, Truth, Tuple, ValueNo};
use std::alloc::Global;
use test_models::{model_of, row_of};
use value_text::NoMemory;

// A number to shuffle by, and the orders of the values of three parameters: words of PCG are drawn for one
// after another, and a heavier value comes first.
const ORDERS: &[(Option<u64>, &[ValueNo], &[ValueNo], &[ValueNo])] = &[
    (None, &[0, 1, 2], &[0, 1], &[1, 3, 0, 2]),
    (Some(0), &[0, 1, 2], &[1, 0], &[3, 1, 2, 0]),
    (Some(7), &[1, 0, 2], &[1, 0], &[1, 3, 2, 0]),
    (Some(u64::MAX), &[2, 0, 1], &[0, 1], &[1, 3, 0, 2]),
];

// Whether the values of a model's three parameters stand in these orders; `false` too where memory was refused.
fn are_orders(
    alloc: Global,
    model: &TestModel,
    number: Option<u64>,
    first: &[ValueNo],
    second: &[ValueNo],
    third: &[ValueNo],
) -> bool {
    match Prefs::new(alloc, model, number) {
        Ok(prefs) => {
            model.params().len() == 3
                && prefs.of(0) == first
                && prefs.of(1) == second
                && prefs.of(2) == third
        }
        Err(_) => false,
    }
}

// The same for a model of which some values are heavier.
fn shuffles(
    alloc: Global,
    number: Option<u64>,
    first: &[ValueNo],
    second: &[ValueNo],
    third: &[ValueNo],
) -> bool {
    match model_of(alloc, "A: 1, 2, 3\nB: 1, 2\nC: 1, 2 (2), 3, 4 (2)\n") {
        Ok(model) => are_orders(alloc, &model, number, first, second, third),
        Err(_) => false,
    }
}

#[test]
fn shuffles_by_a_number(rt: HostRuntime) {
    for (number, first, second, third) in ORDERS {
        let shuffles = shuffles(rt.alloc(), *number, first, second, third);
        assert!(rt; shuffles, "{number:?}");
    }
}

// Whether the values of a model's two parameters stand in its own order.
fn keeps_order(alloc: Global, model: &TestModel) -> bool {
    match Prefs::new(alloc, model, None) {
        Ok(prefs) => {
            model.params().len() == 2
                && prefs.of(0) == [0, 1].as_slice()
                && prefs.of(1) == [0, 1].as_slice()
        }
        Err(NoMemory) => false,
    }
}

fn keeps_order_of_pairs(alloc: Global) -> bool {
    match model_of(alloc, "A: 1, 2\nB: x, y\n") {
        Ok(model) => keeps_order(alloc, &model),
        Err(_) => false,
    }
}

#[test]
fn values_of_one_weight_stay_in_order(rt: HostRuntime) {
    assert!(rt; keeps_order_of_pairs(rt.alloc()));
}

const MODEL: &str = "A: 1, 2.50, ~-3\nB: red, ~Green, blue\n[A] < 2 OR [B] = \"red\";\n";

// The values of a row, and why it isn't valid.
const FAULTS: &[(ValueNo, ValueNo, Option<RowWhy>)] = &[
    (0, 0, None),
    (1, 0, None),
    (1, 2, Some(RowWhy::Rule(1))),
    (1, 1, Some(RowWhy::Rule(1))),
    (2, 0, None),
    (2, 1, Some(RowWhy::Negatives(0, 1))),
];

// Whether this is the fault of the row of these values; `false` too where memory was refused.
fn is_fault(
    alloc: Global,
    model: &TestModel,
    first: ValueNo,
    second: ValueNo,
    fault: Option<RowWhy>,
) -> bool {
    match row_of(alloc, model, first, second) {
        Some(row) => model.row_fault(&row) == fault,
        None => false,
    }
}

// The same for the model with a constraint.
fn finds(alloc: Global, first: ValueNo, second: ValueNo, fault: Option<RowWhy>) -> bool {
    match model_of(alloc, MODEL) {
        Ok(model) => is_fault(alloc, &model, first, second, fault),
        Err(_) => false,
    }
}

#[test]
fn finds_the_fault_of_a_row(rt: HostRuntime) {
    for (first, second, fault) in FAULTS {
        assert!(rt;
            finds(rt.alloc(), *first, *second, *fault),
            "{first} {second}"
        );
    }
}

// What the first constraint of a model, compiled, says of a row.
fn compiled_truth(alloc: Global, model: &TestModel, row: &Cells) -> Option<Truth>
    requires { is_row model.now row.now ≡ true }
{
    if model.rules().is_empty() {
        return None;
    }
    match CompiledRules::new(alloc, model) {
        Ok(rules) => Some(rules.truth(1, row)),
        Err(NoMemory) => None,
    }
}

// The same of the row of these values under the model with a constraint.
fn compiled_truth_of(alloc: Global, first: ValueNo, second: ValueNo) -> Option<Truth> {
    let Ok(model) = model_of(alloc, MODEL) else {
        return None;
    };
    match row_of(alloc, &model, first, second) {
        Some(row) => compiled_truth(alloc, &model, &row),
        None => None,
    }
}

#[test]
fn compiles_a_constraint(rt: HostRuntime) {
    assert!(rt; compiled_truth_of(rt.alloc(), 0, 2) == Some(Truth::Yes));
    assert!(rt; compiled_truth_of(rt.alloc(), 1, 2) == Some(Truth::No));
}

// Whether a copy of a row has these cells; `false` too where memory was refused.
fn copies_as(alloc: Global, row: &Cells, cells: &[Option<ValueNo>]) -> bool {
    match row.copy(alloc) {
        Ok(copy) => copy.as_slice() == cells,
        Err(NoMemory) => false,
    }
}

// Whether a row of two cells has the one that was set, and so has its copy.
fn makes_row(alloc: Global) -> bool {
    match Cells::empty(alloc, 2) {
        Ok(mut row) => {
            row.set_cell(1, 4);
            row.len() == 2
                && row.get(0).is_none()
                && row.get(1) == Some(4)
                && copies_as(alloc, &row, &[None, Some(4)])
        }
        Err(NoMemory) => false,
    }
}

// Whether a tuple has the pairs that it is made of.
fn makes_tuple(alloc: Global) -> bool {
    match Tuple::of(alloc, &[(0, 3), (2, 1)]) {
        Ok(tuple) => tuple.as_slice() == [(0, 3), (2, 1)].as_slice(),
        Err(NoMemory) => false,
    }
}

#[test]
fn makes_rows_and_tuples(rt: HostRuntime) {
    assert!(rt; makes_row(rt.alloc()));
    assert!(rt; makes_tuple(rt.alloc()));
}

// Whether the copy of a row of five keeps its last cell when the row loses it.
fn copy_stays(alloc: Global, row: &mut Cells) -> bool
    requires { length row.old ≡ 5 }
{
    match row.copy(alloc) {
        Ok(copy) => {
            row.clear_cell(4);
            copy.as_slice() == [None, None, None, None, Some(1)].as_slice()
        }
        Err(NoMemory) => false,
    }
}

// The same for a row with its last cell alone.
fn copies_five(alloc: Global) -> bool {
    match Cells::empty(alloc, 5) {
        Ok(mut row) => {
            row.set_cell(4, 1);
            copy_stays(alloc, &mut row)
        }
        Err(NoMemory) => false,
    }
}

// One parameter more than a row has room for without memory.
#[test]
fn copies_a_row_of_five(rt: HostRuntime) {
    assert!(rt; copies_five(rt.alloc()));
}

// Rows of these two cells each.
fn packed(alloc: Global, table: &[(Option<ValueNo>, Option<ValueNo>)]) -> Result<Rows, NoMemory>
    ensures { IfOk result (All (λ row. length row ≡ 2)) }
{
    let mut rows = Rows::new(alloc);
    for (first, second) in table {
        rows.push(&[*first, *second])?;
    }
    Ok(rows)
}

// Whether these are the three rows that are packed below.
fn are_packed(rows: &Rows) -> bool {
    rows.len() == 3
        && rows.row(0) == [Some(1), None].as_slice()
        && rows.row(1) == [None, Some(2)].as_slice()
        && rows.row(2) == [Some(3), Some(4)].as_slice()
}

// Whether they are that with a third row behind them; `false` too where memory was refused.
fn packs_third(alloc: Global, rows: &mut Rows) -> bool
    requires { All (λ row. length row ≡ 2) rows.old }
{
    match packed(alloc, &[(Some(3), Some(4))]) {
        Ok(others) => rows.append(others).is_ok() && are_packed(rows),
        Err(NoMemory) => false,
    }
}

// The same behind the first two.
fn packs_rows(alloc: Global) -> bool {
    match packed(alloc, &[(Some(1), None), (None, Some(2))]) {
        Ok(mut rows) => packs_third(alloc, &mut rows),
        Err(NoMemory) => false,
    }
}

#[test]
fn packs_rows_behind_others(rt: HostRuntime) {
    assert!(rt; packs_rows(rt.alloc()));
}

ghost use Rattle.std.specs.Prelude.{◌≡◌, ◌<◌, true, IsTrue, IfSome, length};
ghost use Rattle.cov_model.specs.believed.Valid.{is_row};
ghost use Rattle.definitions.specs.SliceRows.{IsOfSlice};
ghost use Rattle.test_models.specs.Rows.{IsPositiveCell};

use cov_model::{Cells, ParamNo, Slice, TestModel, ValueNo};
use std::alloc::Global;

// Whether the cell has no value, or one of the parameter that exists and isn't negative.
fn is_positive_cell(model: &TestModel, p: ParamNo, cell: Option<ValueNo>) -> bool
    requires { p < length model.now.params }
    ensures { IsTrue result → IsPositiveCell model.now p cell }
{
    match cell {
        Some(v) => v < model.value_count(p) && !model.is_negative(p, v),
        None => true,
    }
}

/// Whether the row is one of the positive slice.
pub fn is_positive_row(model: &TestModel, row: &Cells) -> bool
    ensures { IsTrue result → IsOfSlice model.now Slice.Positive row.now }
{
    let count = model.params().len();
    if row.len() != count {
        return false;
    }
    for p in 0..count as ParamNo {
        if !is_positive_cell(model, p, row.get(p)) {
            return false;
        }
    }
    true
}

/// The row of these values of the two parameters of a model. `None` where it has another number of
/// parameters or no such values, or memory was refused.
pub fn row_of(alloc: Global, model: &TestModel, first: ValueNo, second: ValueNo) -> Option<Cells>
    ensures { IfSome result (λ row. is_row model.now row ≡ true) }
{
    let [a, b] = model.params().as_slice() else {
        return None;
    };
    if first as usize >= a.values.len() || second as usize >= b.values.len() {
        return None;
    }
    let Ok(mut row) = Cells::empty(alloc, 2) else {
        return None;
    };
    row.set_cell(0, first);
    row.set_cell(1, second);
    Some(row)
}

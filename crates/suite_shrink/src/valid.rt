ghost use Rattle.std.specs.Prelude.{◌≡◌, true, All, AllPairs, false, IfOk};
ghost use Rattle.cov_model.specs.Fits.{FitsModel};
ghost use Rattle.cov_model.specs.believed.Valid.{is_valid};
ghost use Rattle.definitions.specs.believed.Seeds.{is_same_row};

use cov_model::{Cells, Rows, TestModel};
use distinct_rows::RowSet;
use row_text::is_complete;
use std::alloc::Global;
use value_text::NoMemory;

// Whether a row is complete and valid.
fn is_test(model: &TestModel, cells: &Cells) -> bool
    requires { FitsModel model.now cells.now }
    ensures { result ≡ true → is_valid model.now cells.now ≡ true }
{
    model.assert_invariant();
    is_complete(cells) && model.row_fault(cells).is_none()
}

// Whether every row is complete and valid.
pub(crate) fn are_valid(alloc: Global, model: &TestModel, rows: &Rows) -> Result<bool, NoMemory>
    requires { All (FitsModel model.now) rows.now }
    ensures { IfOk result (λ valid. valid ≡ true
        → All (λ row. is_valid model.now row ≡ true) rows.now) }
{
    let mut cells = Cells::empty(alloc, model.params().len())?;
    for i in 0..rows.len() {
        cells.copy_from_slice(rows.row(i));
        if !is_test(model, &cells) {
            return Ok(false);
        }
    }
    Ok(true)
}

// Whether no two rows are the same.
pub(crate) fn are_distinct(alloc: Global, model: &TestModel, rows: &Rows) -> Result<bool, NoMemory>
    requires { All (FitsModel model.now) rows.now }
    ensures { IfOk result (λ distinct. distinct ≡ true
        → AllPairs (λ a b. is_same_row a b ≡ false) rows.now) }
{
    let _ = model;
    let mut known = RowSet::new(alloc);
    for i in 0..rows.len() {
        if !known.add(alloc, rows.row(i))? {
            return Ok(false);
        }
    }
    Ok(true)
}

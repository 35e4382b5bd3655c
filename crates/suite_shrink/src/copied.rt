ghost use Rattle.std.specs.Prelude.{◌≡◌, ◌∷◌, ◌++◌, [], All, IfOk, OnOk};
ghost use Rattle.cov_model.specs.Fits.{FitsModel};
ghost use Rattle.row_text.specs.RowFiles.{suite_seen};

use cov_model::{Rows, TestModel};
use row_text::{FileRow, RowFile};
use std::alloc::Global;
use value_text::NoMemory;

// Adds a copy of a row.
fn add_copy(model: &TestModel, row: &FileRow, rows: &mut Rows) -> Result<(), NoMemory>
    requires row { FitsModel model.now row.now.cells }
    requires rows { All (FitsModel model.now) rows.old }
    ensures rows { OnOk result (rows.new ≡ rows.old ++ row.now.cells ∷ []) }
    ensures fit { OnOk result (All (FitsModel model.now) rows.new) }
{
    let _ = model;
    rows.push(row.cells.as_slice())
}

/// Copies of the rows of a file, which fit the model.
///
/// # Errors
///
/// `NoMemory` where memory is refused.
pub fn copied_rows(alloc: Global, model: &TestModel, file: &RowFile) -> Result<Rows, NoMemory>
    requires { All (λ row. FitsModel model.now row.cells) file.now.rows }
    ensures { IfOk result (λ rows. rows ≡ suite_seen file.now) }
{
    let mut rows = Rows::new(alloc);
    for row in file.rows.as_slice() {
        add_copy(model, row, &mut rows)?;
    }
    Ok(rows)
}

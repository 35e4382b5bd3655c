ghost use Rattle.std.specs.Prelude.{◌≡◌, All, not};
ghost use Rattle.cov_model.specs.Fits.{FitsModel};
ghost use Rattle.cov_model.specs.believed.Rows.{is_complete};

use cov_model::{Cells, TestModel};
use row_text::{RowFile, is_complete};
use std::alloc::Global;
use value_text::NoMemory;

// Whether a row leaves a parameter without a value.
fn has_gap(model: &TestModel, cells: &Cells) -> bool
    requires { FitsModel model.now cells.now }
    ensures { result ≡ not (is_complete cells.now) }
{
    model.assert_invariant();
    !is_complete(cells)
}

/// The lines of the rows that leave a parameter without a value.
///
/// # Errors
///
/// `NoMemory` where memory was refused.
pub(crate) fn lines_with_gaps(
    alloc: Global,
    model: &TestModel,
    tests: &RowFile,
) -> Result<Vec<u32>, NoMemory>
    requires { All (λ row. FitsModel model.now row.cells) tests.now.rows }
{
    let mut lines = Vec::new(alloc);
    for row in tests.rows.as_slice() {
        if has_gap(model, &row.cells) {
            lines.push(row.line)?;
        }
    }
    Ok(lines)
}

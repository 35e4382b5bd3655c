ghost use Rattle.std.specs.Prelude.{◌≡◌, All, find, not, option_map};
ghost use Rattle.cov_model.specs.Fits.{FitsModel};
ghost use Rattle.cov_model.specs.believed.Valid.{is_valid};
ghost use Rattle.row_text.specs.RowFiles.{seeds_seen};

use cov_model::{Cells, TestModel};
use row_text::{RowFile, is_complete};

// Whether a partial row is a valid row, which it is only if it is complete.
fn is_valid(model: &TestModel, cells: &Cells) -> bool
    requires { FitsModel model.now cells.now }
    ensures { result ≡ is_valid model.now cells.now }
{
    model.assert_invariant();
    if !is_complete(cells) {
        return false;
    }
    model.row_fault(cells).is_none()
}

// The line of the first row of a file that isn't valid; a row that isn't complete isn't valid. Takes no
// memory.
pub(crate) fn first_bad_row(model: &TestModel, file: &RowFile) -> Option<u32>
    requires { All (λ row. FitsModel model.now row.cells) file.now.rows }
    ensures { result ≡ option_map (λ line. line.0) (find (λ line. not (is_valid model.now line.1)) (seeds_seen file.now)) }
{
    for row in file.rows.as_slice() {
        if !is_valid(model, &row.cells) {
            return Some(row.line);
        }
    }
    None
}

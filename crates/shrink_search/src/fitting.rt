ghost use Rattle.std.specs.Prelude.{◌≡◌, length};
ghost use Rattle.cov_model.specs.Fits.{FitsModel};

use cov_model::{Cells, ParamNo, TestModel, ValueNo};

// Gives a parameter of a row a value, if both exist.
pub(crate) fn put_value(model: &TestModel, cells: &mut Cells, p: ParamNo, v: ValueNo)
    requires { FitsModel model.now cells.old }
    ensures { FitsModel model.now cells.new }
{
    let params = model.params().as_slice();
    if (p as usize) < params.len() && (v as usize) < params[p as usize].values.len() {
        cells.set_cell(p, v);
    }
}

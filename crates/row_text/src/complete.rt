ghost use Rattle.std.specs.Prelude.{◌≡◌, ◌^◌, ◌<◌, length};
ghost use Rattle.cov_model.specs.believed.Rows.{is_complete};

use cov_model::{Cells, ParamNo};

/// Whether a partial row gives every parameter a value. The row has fewer than 2^16 places, as each row of a model
/// does. Takes no memory.
pub fn is_complete(cells: &Cells) -> bool
    requires { length cells.now < 2 ^ 16 }
    ensures { result ≡ is_complete cells.now }
{
    let count = cells.len() as ParamNo;
    for p in 0..count {
        if cells.get(p).is_none() {
            return false;
        }
    }
    true
}

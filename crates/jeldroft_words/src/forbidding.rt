ghost use Rattle.cov_model.specs.Fits.{FitsModel};

use cov_model::{Cells, Rule, TestModel, Truth};

/// The first constraint that a row alone makes false, whatever values its other parameters have; `None` where none is known
/// to be. Takes no memory.
pub fn forbidding_rule<'m>(model: &'m TestModel, row: &Cells) -> Option<&'m Rule>
    requires { FitsModel model.now row.now }
{
    model.assert_invariant();
    let count = model.rules().len() as u32;
    for i in 0..count {
        if model.eval(i + 1, row) == Truth::No {
            return model.rules().get(i as usize);
        }
    }
    None
}

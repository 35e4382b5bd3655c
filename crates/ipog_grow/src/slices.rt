ghost use Rattle.std.specs.Prelude.{◌≡◌, ◌<◌, ◌++◌, map, length, IfOk, OnOk};
ghost use Rattle.cov_model.specs.believed.Sound.{param_at};
ghost use Rattle.cov_model.specs.believed.Slices.{negative_values, slices};
ghost use Rattle.ipog_grow.specs.SliceLists.{negative_slices};

use cov_model::{ParamNo, Slice, TestModel, ValueNo};
use std::alloc::Global;
use value_text::NoMemory;

// Puts the slices of a parameter's negative values behind others, values rising.
fn push_negatives(model: &TestModel, p: ParamNo, list: &mut Vec<Slice>) -> Result<(), NoMemory>
    requires { p < length model.now.params }
    ensures { OnOk result (list.new.items ≡ list.old.items ++ negative_slices model.now p) }
{
    let values = model.params().as_slice()[p as usize].values.as_slice();
    let count = values.len() as ValueNo;
    for v in 0..count {
        if values[v as usize].negative {
            list.push(Slice::Negative(p, v))?;
        }
    }
    Ok(())
}

// The slices of a model in order: the positive one, then those of the negative values.
pub(crate) fn slices_of(alloc: Global, model: &TestModel) -> Result<Vec<Slice>, NoMemory>
    ensures { IfOk result (λ list. list.items ≡ slices model.now) }
{
    let mut list = Vec::new(alloc);
    list.push(Slice::Positive)?;
    let count = model.params().len() as ParamNo;
    for p in 0..count {
        push_negatives(model, p, &mut list)?;
    }
    Ok(list)
}

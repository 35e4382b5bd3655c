ghost use Rattle.std.specs.Prelude.{◌≡◌, IfOk};
ghost use Rattle.cov_model.specs.Views.{body_view};
ghost use Rattle.feasibility.specs.Tree.{all_members, members};

use crate::named::body_names;
use crate::values::put_list;
use cov_model::{Body, ParamNo, TestModel};
use packed_lists::PackedLists;
use std::alloc::Global;
use value_text::NoMemory;

// Those of so many parameters that a constraint names.
fn members(alloc: Global, count: ParamNo, body: &Body) -> Result<Vec<ParamNo>, NoMemory>
    ensures { IfOk result (λ list. list.items ≡ members count (body_view body.now)) }
{
    let mut list = Vec::new(alloc);
    for p in 0..count {
        if body_names(body, p) {
            list.push(p)?;
        }
    }
    Ok(list)
}

// The parameters that each constraint names.
pub(crate) fn member_lists(alloc: Global, model: &TestModel) -> Result<PackedLists, NoMemory>
    ensures { IfOk result (λ lists. lists ≡ all_members model.now) }
{
    let count = model.params().len() as ParamNo;
    let mut lists = PackedLists::new(alloc);
    for rule in model.rules().as_slice() {
        let list = members(alloc, count, &rule.body)?;
        put_list(&mut lists, list)?;
    }
    Ok(lists)
}

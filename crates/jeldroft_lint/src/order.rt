ghost use Rattle.std.specs.Prelude.{◌≡◌, ◌++◌, IfOk, OnOk};
ghost use Rattle.jeldroft_lint.specs.believed.Remarks.{IsInOrder, place_of};

use crate::remark::Remark;
use value_text::NoMemory;

// Puts remarks in order: by lines, those of one line by their kinds, and those of one kind as they were.
fn sort(list: &mut Vec<Remark>) -> Result<(), NoMemory>
    ensures { OnOk result (IsInOrder list.old.items list.new.items) }
{
    let key = |remark: &Remark| -> u64
        ensures { result ≡ place_of remark.now }
    { remark.place() };
    list.sort_by_key(key)?;
    Ok(())
}

/// The remarks of two lists in order.
pub(crate) fn in_order(
    mut list: Vec<Remark>,
    mut others: Vec<Remark>,
) -> Result<Vec<Remark>, NoMemory>
    ensures { IfOk result (λ told. IsInOrder (list.items ++ others.items) told.items) }
{
    list.append(&mut others)?;
    sort(&mut list)?;
    Ok(list)
}

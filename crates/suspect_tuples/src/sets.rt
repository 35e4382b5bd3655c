ghost use Rattle.std.specs.Prelude.{◌≡◌, ◌≤◌, ◌<◌, ◌^◌, ◌++◌, [], All, drop, length, map, IfOk, OnOk};
ghost use Rattle.cov_model.specs.Fits.{FitsModel};
ghost use Rattle.cov_model.specs.believed.Valid.{param_numbers};
ghost use Rattle.definitions.specs.believed.Demand.{choose};
ghost use Rattle.suspect_tuples.specs.Edges.{edges_behind, tuples_behind};
ghost use Rattle.suspect_tuples.specs.Sets.{AreBefore, AreWide};
ghost use Rattle.suspect_tuples.specs.believed.Suspects.{suspect_tuples};
ghost use Rattle.suspect_tuples.specs.Told.{found_seen};

use crate::edges::add_edges;
use crate::row_bits::RowBits;
use crate::row_list::RowList;
use crate::suspect_list::FoundList;
use crate::take_last::take_last;
use cov_model::{ParamNo, TestModel};
use std::alloc::Global;
use value_text::NoMemory;

// Adds the edges of all sets that begin with these parameters and go on with `more` of the parameters from `first` on,
// each edge with the number of failing rows that contain it.
fn add_sets(
    alloc: Global,
    model: &TestModel,
    passing: &RowBits<'_, '_>,
    failing: &RowList<'_>,
    set: &mut Vec<ParamNo>,
    first: ParamNo,
    more: usize,
    found: &mut FoundList,
) -> Result<(), NoMemory>
    requires set { AreBefore first set.old.items }
    requires first { first ≤ length model.now.params }
    requires failing { AreWide model.now failing.now }
    ensures found { OnOk result (map found_seen found.new ≡ map found_seen found.old
        ++ edges_behind passing.now failing.now [] (tuples_behind model.now set.old.items (choose more (drop first (param_numbers model.now))))) }
    ensures set { OnOk result (set.new.items ≡ set.old.items) }
{
    let params = model.params().len();
    if more == 0 {
        let mut before = Vec::new(alloc);
        return add_edges(alloc, model, passing, failing, &mut before, set, found);
    }
    let last = params.saturating_sub(more - 1) as ParamNo;
    for param in first..last {
        set.push(param)?;
        add_sets(
            alloc,
            model,
            passing,
            failing,
            set,
            param + 1,
            more - 1,
            found,
        )?;
        take_last(set);
    }
    Ok(())
}

// The smallest suspicious tuples, each with the number of failing rows that contain it.
pub(crate) fn find_all(
    alloc: Global,
    model: &TestModel,
    passing: &RowList<'_>,
    failing: &RowList<'_>,
) -> Result<FoundList, NoMemory>
    requires passing { All (λ row. FitsModel model.now row) passing.now }
    requires few { length passing.now < 2 ^ 32 }
    requires failing { AreWide model.now failing.now }
    ensures { IfOk result (λ found. map found_seen found ≡ suspect_tuples model.now passing.now failing.now) }
{
    let mut found = FoundList::new(alloc);
    if failing.len() == 0 {
        return Ok(found);
    }
    let bits = RowBits::new(alloc, model, passing)?;
    let mut set = Vec::new(alloc);
    let order = model.demand().order as usize;
    for fewer in 0..order {
        add_sets(
            alloc,
            model,
            &bits,
            failing,
            &mut set,
            0,
            fewer + 1,
            &mut found,
        )?;
    }
    Ok(found)
}

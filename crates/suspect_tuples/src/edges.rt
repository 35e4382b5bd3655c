ghost use Rattle.std.specs.Prelude.{◌≡◌, ◌<◌, ◌++◌, ◌∷◌, [], length, map, remove, OnOk};
ghost use Rattle.std.specs.List.{list_all, range_with_len};
ghost use Rattle.cov_model.specs.Tuples.{IsRising};
ghost use Rattle.suspect_tuples.specs.Edges.{edges_behind, is_edge, is_had};
ghost use Rattle.suspect_tuples.specs.Sets.{AreParams, AreWide};
ghost use Rattle.suspect_tuples.specs.believed.Suspects.{tuples_on};
ghost use Rattle.suspect_tuples.specs.Told.{found_seen};

use crate::row_bits::RowBits;
use crate::row_list::RowList;
use crate::suspect_list::{Found, FoundList};
use crate::take_last::take_last;
use cov_model::{ParamNo, TestModel, Tuple, ValueNo};
use std::alloc::Global;
use value_text::NoMemory;

// Whether one of the rows contains the tuple without its pair at any one place.
fn has_each_without(rows: &RowBits<'_, '_>, tuple: &[(ParamNo, ValueNo)]) -> bool
    ensures { result ≡ list_all (λ i. is_had rows.now (remove tuple.now i)) (range_with_len 0 (length tuple.now)) }
{
    for left_out in 0..tuple.len() {
        if !rows.has_without(tuple, left_out) {
            return false;
        }
    }
    true
}

// Whether the tuple is an edge: no passing row contains it, while each proper part of it is in some passing row. Parts
// of one pair less are enough, since a row that contains a tuple contains its parts.
fn is_edge(passing: &RowBits<'_, '_>, tuple: &[(ParamNo, ValueNo)]) -> bool
    ensures { result ≡ is_edge passing.now tuple.now }
{
    if passing.has(tuple) {
        return false;
    }
    tuple.len() < 2 || has_each_without(passing, tuple)
}

// Adds a tuple, if it is an edge, with the number of these rows, which are all those that contain it.
fn add_edge(
    alloc: Global,
    passing: &RowBits<'_, '_>,
    rows: &RowList<'_>,
    tuple: &[(ParamNo, ValueNo)],
    found: &mut FoundList,
) -> Result<(), NoMemory>
    requires some { 0 < length rows.now }
    requires rising { IsRising tuple.now }
    ensures { OnOk result (map found_seen found.new ≡ map found_seen found.old ++ edges_behind passing.now rows.now tuple.now ([] ∷ [])) }
{
    if !is_edge(passing, tuple) {
        return Ok(());
    }
    found.push(Found {
        tuple: Tuple::of(alloc, tuple)?,
        failing: rows.len() as u64,
    })?;
    Ok(())
}

// Adds the edges that begin with these pairs and go on with a value of each parameter of the set, each with the number
// of these rows, which are all those with the pairs, that contain what follows.
pub(crate) fn add_edges(
    alloc: Global,
    model: &TestModel,
    passing: &RowBits<'_, '_>,
    rows: &RowList<'_>,
    before: &mut Vec<(ParamNo, ValueNo)>,
    set: &[ParamNo],
    found: &mut FoundList,
) -> Result<(), NoMemory>
    requires params { AreParams model.now (map (λ pair. pair.0) before.old.items ++ set.now) }
    requires rows { AreWide model.now rows.now }
    ensures found { OnOk result (map found_seen found.new ≡ map found_seen found.old ++ edges_behind passing.now rows.now before.old.items (tuples_on model.now set.now)) }
    ensures before { OnOk result (before.new.items ≡ before.old.items) }
{
    if rows.len() == 0 {
        return Ok(());
    }
    let [param, rest @ ..] = set else {
        return add_edge(alloc, passing, rows, before, found);
    };
    let count = model.value_count(*param);
    for value in 0..count {
        let giving = rows.giving(alloc, (*param, value))?;
        before.push((*param, value))?;
        add_edges(alloc, model, passing, &giving, before, rest, found)?;
        take_last(before);
    }
    Ok(())
}

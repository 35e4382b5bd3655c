ghost use Rattle.std.specs.Prelude.{◌≡◌, true, All, IfOk};
ghost use Rattle.cov_model.specs.Fits.{FitsModel};
ghost use Rattle.shorter_suites.specs.believed.Shrinking.{IsShrunk};
ghost use Rattle.suite_shrink.specs.Coverage.{AreMarksOf};
ghost use Rattle.tuple_index.specs.Plan.{plan_of};

use crate::planned_model::PlannedModel;
use crate::seeds::keep_seeds;
use crate::served::serve_too;
use crate::valid::{are_distinct, are_valid};
use cov_model::Rows;
use shared_marks::Bits;
use std::alloc::Global;
use value_text::NoMemory;

// Whether rows are what a shorter suite has to be. The demanded tuples that the given rows serve are
// marked.
pub(crate) fn is_shrunk(
    alloc: Global,
    of: &PlannedModel<'_>,
    given: &Rows,
    seeds: &Rows,
    marks: &Bits,
    rows: &Rows,
) -> Result<bool, NoMemory>
    requires plan { of.now.plan.now ≡ plan_of of.now.model.now }
    requires marks { AreMarksOf of.now.model.now given.now marks.now }
    requires fits { All (FitsModel of.now.model.now) rows.now }
    ensures { IfOk result (λ accepted. accepted ≡ true
        → IsShrunk of.now.model.now given.now seeds.now rows.now) }
{
    if rows.len() > given.len() {
        return Ok(false);
    }
    if !keep_seeds(given, seeds, rows) {
        return Ok(false);
    }
    if !are_valid(alloc, of.model, rows)? {
        return Ok(false);
    }
    if !are_distinct(alloc, of.model, rows)? {
        return Ok(false);
    }
    if !serve_too(alloc, of, given, marks, rows)? {
        return Ok(false);
    }
    Ok(true)
}

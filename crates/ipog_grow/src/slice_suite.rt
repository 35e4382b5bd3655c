ghost use Rattle.std.specs.Prelude.{◌≡◌, ◌+◌, ◌<◌, ◌≤◌, ◌^◌, ◌++◌, [], All, length, IfOk, OnOk};
ghost use Rattle.std.specs.List.{filter};
ghost use Rattle.definitions.specs.believed.Growth.{is_of_slice};
ghost use Rattle.definitions.specs.SliceRows.{IsSliceOf};
ghost use Rattle.feasibility.specs.Refuting.{earlier_tuples};
ghost use Rattle.ipog_grow.specs.Asking.{IsNew, first_spent};
ghost use Rattle.ipog_grow.specs.Inputs.{IsSoundInput, context_in};
ghost use Rattle.ipog_grow.specs.Omissions.{AreOmissionsOf, met_count};
ghost use Rattle.ipog_grow.specs.SliceGrowing.{grown_from};
ghost use Rattle.feasibility.specs.Ends.{Ends};

use crate::input::GrowInput;
use crate::question::fault_of;
use crate::seeds::seeds_of_slice;
use crate::slice_growth::SliceGrowth;
use crate::workers::Workers;
use cov_model::{Rows, Slice};
use feasibility::SearchFault;
use refutation::Omissions;
use std::alloc::Global;
use std::thread::Threads;
use value_text::NoMemory;
use worker_gate::Gate;

// The growth of a slice from its kept seeds, before its first column.
fn growth_from_seeds<'a>(
    alloc: Global,
    input: &GrowInput<'a>,
    slice: Slice,
) -> Result<SliceGrowth<'a>, NoMemory>
    requires input { IsSoundInput input.now }
    requires slice { IsSliceOf input.now.model.now slice }
    ensures context { IfOk result (λ growth. growth.asker.context ≡ context_in input.now slice) }
    ensures is_new { IfOk result (λ growth. IsNew growth.asker.context growth.table growth.tuple growth.room) }
    ensures rows { IfOk result (λ growth. growth.rows ≡ filter (is_of_slice input.now.model.now slice) input.now.kept.now) }
    ensures omitted { IfOk result (λ growth. growth.omitted.items ≡ []) }
{
    let (model, prefs, plan) = (input.model, input.prefs, input.plan);
    let seeds = seeds_of_slice(alloc, model, input.kept, slice)?;
    SliceGrowth::new(alloc, model, prefs, plan, slice, input.effort, seeds)
}

// Grows a slice from its kept seeds, and puts its rows and omitted tuples behind those of earlier
// slices.
pub(crate) fn grow_slice<R: Threads + Sync, G: Gate + Sync>(
    workers: &Workers<'_, R, G>,
    alloc: Global,
    input: &GrowInput<'_>,
    slice: Slice,
    rows: &mut Rows,
    omissions: &mut Omissions,
) -> Result<(), SearchFault>
    requires input { IsSoundInput input.now }
    requires slice { IsSliceOf input.now.model.now slice }
    requires earlier { AreOmissionsOf input.now.model.now input.now.prefs.now input.now.effort input.now.proof omissions.old }
    requires long { All (λ row. length row ≡ length input.now.model.now.params) rows.old }
    requires few { length omissions.old.omissions + met_count input.now.model.now slice < 2 ^ 32 }
    ensures rows { OnOk result (rows.new ≡ rows.old
        ++ (grown_from (context_in input.now slice) (filter (is_of_slice input.now.model.now slice) input.now.kept.now)).rows) }
    ensures long { OnOk result (All (λ row. length row ≡ length input.now.model.now.params) rows.new) }
    ensures tuples { OnOk result (earlier_tuples input.now.model.now omissions.new ≡ earlier_tuples input.now.model.now omissions.old
        ++ (grown_from (context_in input.now slice) (filter (is_of_slice input.now.model.now slice) input.now.kept.now)).omitted) }
    ensures omissions { OnOk result (AreOmissionsOf input.now.model.now input.now.prefs.now input.now.effort input.now.proof omissions.new) }
    ensures count { OnOk result (length omissions.new.omissions ≤ length omissions.old.omissions + met_count input.now.model.now slice) }
    ensures asked { Ends result (first_spent (context_in input.now slice)
        (grown_from (context_in input.now slice) (filter (is_of_slice input.now.model.now slice) input.now.kept.now)).asked) }
{
    input.model.assert_invariant();
    let Ok(mut growth) = growth_from_seeds(alloc, input, slice) else {
        return Err(SearchFault::NoMemory);
    };
    let (model, prefs, plan) = (input.model, input.prefs, input.plan);
    if let Err(stop) = growth.grow_columns(workers, alloc, model, prefs, plan, slice) {
        return Err(fault_of(alloc, stop, growth.asker.question()));
    }
    growth.finish(alloc, input.proof, rows, omissions)
}

ghost use Rattle.std.specs.Prelude.{◌≡◌, ◌<◌, ◌≤◌, ◌^◌, [], ℕ, List, Option, All, length, sum_by, unwrap_or, IfOk, OnOk};
ghost use Rattle.cov_model.specs.Fits.{FitsModel};
ghost use Rattle.cov_model.specs.Preference.{OrdersValues};
ghost use Rattle.definitions.specs.believed.Growth.{growth, slices_growth};
ghost use Rattle.definitions.specs.believed.Search.{first_over};
ghost use Rattle.definitions.specs.believed.Seeds.{kept_seeds};
ghost use Rattle.definitions.specs.SliceRows.{IsSliceOf};
ghost use Rattle.feasibility.specs.Refuting.{earlier_tuples};
ghost use Rattle.row_text.specs.RowFiles.{seeds_seen};
ghost use Rattle.tuple_index.specs.Plan.{plan_of};
ghost use Rattle.ipog_grow.specs.Inputs.{IsSoundInput};
ghost use Rattle.ipog_grow.specs.Omissions.{AreOmissionsOf, met_count};
ghost use Rattle.feasibility.specs.Ends.{Ends};
ghost use Rattle.ipog_grow.specs.Suites.{IsSuiteOf};

use crate::input::GrowInput;
use crate::seeds::split_seeds;
use crate::slice_suite::grow_slice;
use crate::slices::slices_of;
use crate::suite::{GrowOpts, Suite};
use crate::workers::Workers;
use cov_model::{Prefs, Rows, Slice, TestModel};
use feasibility::SearchFault;
use refutation::{Omissions, ProofForm};
use row_text::RowFile;
use std::alloc::Global;
use std::thread::Threads;
use tuple_index::Plan;
use worker_gate::Gate;

// Grows slices in order from the kept seeds.
fn grow_slices<R: Threads + Sync, G: Gate + Sync>(
    workers: &Workers<'_, R, G>,
    alloc: Global,
    input: &GrowInput<'_>,
    slices: &[Slice],
    rows: &mut Rows,
    omissions: &mut Omissions,
) -> Result<(), SearchFault>
    requires input { IsSoundInput input.now }
    requires slices { All (IsSliceOf input.now.model.now) slices.now }
    requires few { sum_by (met_count input.now.model.now) slices.now < 2 ^ 32 }
    requires none { rows.old ≡ [] }
    requires none_omitted { omissions.old ≡ record { form = unwrap_or input.now.proof ProofForm.One; omissions = [] } }
    ensures rows { OnOk result ((seeds : List (ℕ × List (Option ℕ))) → input.now.kept.now ≡ kept_seeds input.now.model.now seeds
        → rows.new ≡ (slices_growth input.now.model.now input.now.prefs.now seeds slices.now).rows) }
    ensures tuples { OnOk result ((seeds : List (ℕ × List (Option ℕ))) → input.now.kept.now ≡ kept_seeds input.now.model.now seeds
        → earlier_tuples input.now.model.now omissions.new ≡ (slices_growth input.now.model.now input.now.prefs.now seeds slices.now).omitted) }
    ensures omissions { OnOk result (AreOmissionsOf input.now.model.now input.now.prefs.now input.now.effort input.now.proof omissions.new) }
    ensures asked { (seeds : List (ℕ × List (Option ℕ))) → input.now.kept.now ≡ kept_seeds input.now.model.now seeds
        → Ends result (first_over input.now.model.now input.now.prefs.now input.now.effort
        (slices_growth input.now.model.now input.now.prefs.now seeds slices.now).asked) }
{
    for slice in slices {
        grow_slice(workers, alloc, input, *slice, rows, omissions)?;
    }
    Ok(())
}

/// Generates a suite: row by row what growth gives for the model with these preferences and seeds.
/// Where a proof is asked for, each omitted tuple has an eager tree of its form, which refutes it
/// after those before it.
///
/// # Errors
///
/// `Spent` with the first question whose plain cost is above what one may cost, exactly where there is one;
/// `NoMemory` where there is no room.
pub fn generate<R: Threads + Sync, G: Gate + Sync>(
    rt: &R,
    alloc: Global,
    model: &TestModel,
    plan: &Plan,
    prefs: &Prefs,
    seeds: &RowFile,
    opts: &GrowOpts,
    gate: &G,
) -> Result<Suite, SearchFault>
    requires plan { plan.now ≡ plan_of model.now }
    requires orders { OrdersValues model.now prefs.now }
    requires seeds { All (λ seed. FitsModel model.now seed.cells) seeds.now.rows }
    requires few { length seeds.now.rows ≤ 2 ^ 20 }
    requires some_workers { 1 ≤ opts.now.workers }
    requires few_workers { opts.now.workers ≤ 64 }
    ensures suite { IfOk result (IsSuiteOf model.now prefs.now (seeds_seen seeds.now) opts.now.effort opts.now.proof) }
    ensures asked { Ends result (first_over model.now prefs.now opts.now.effort (growth model.now prefs.now (seeds_seen seeds.now)).asked) }
{
    plan.assert_invariant();
    let workers = Workers {
        rt,
        count: opts.workers,
        gate,
    };
    let split = split_seeds(alloc, model, prefs, seeds, opts.effort)?;
    let Ok(slices) = slices_of(alloc, model) else {
        return Err(SearchFault::NoMemory);
    };
    let form = match opts.proof {
        Some(form) => form,
        None => ProofForm::One,
    };
    let mut rows = Rows::new(alloc);
    let mut omitted = Omissions::empty(alloc, form);
    let input = GrowInput {
        model,
        plan,
        prefs,
        kept: &split.kept,
        effort: opts.effort,
        proof: opts.proof,
    };
    grow_slices(
        &workers,
        alloc,
        &input,
        slices.as_slice(),
        &mut rows,
        &mut omitted,
    )?;
    let kept = split.kept.len() as u32;
    Ok(Suite {
        rows,
        omitted,
        kept,
        dropped: split.dropped,
    })
}

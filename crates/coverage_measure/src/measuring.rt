ghost use Rattle.std.specs.Prelude.{◌≡◌, ◌^◌, ◌≤◌, ℕ, List, Option, None, All, IfOk, length, map, sum};
ghost use Rattle.cov_model.specs.Fits.{FitsModel};
ghost use Rattle.cov_model.specs.Preference.{OrdersValues};
ghost use Rattle.definitions.specs.believed.Demand.{demanded_sets, demanded_tuples};
ghost use Rattle.definitions.specs.believed.Figures as defined;
ghost use Rattle.definitions.specs.believed.Search.{first_measured_over, first_over};
ghost use Rattle.row_text.specs.RowFiles.{suite_seen};
ghost use Rattle.row_text.specs.Told.{figures_seen};
ghost use Rattle.tuple_index.specs.Plan.{plan_of};
ghost use Rattle.feasibility.specs.Ends.{Ends};
ghost use Rattle.coverage_measure.specs.SetFigures.{set_figures};

use crate::asking::Asking;
use crate::covered::count_covered;
use crate::servable::count_servable;
use crate::set_figures::SetFigures;
use crate::suite_rows::count_rows;
use cov_model::{Prefs, TestModel};
use definitions::Effort;
use feasibility::SearchFault;
use row_text::{Figures, RowFile};
use shared_marks::{Bits, count_tuples, mark_rows};
use std::alloc::Global;
use std::thread::Threads;
use tuple_index::Plan;
use worker_gate::Gate;

// The figures of the demanded sets. Marked are the demanded tuples that tests of a suite serve.
fn measure_sets(asking: &Asking<'_>, plan: &Plan, marks: &Bits) -> Result<SetFigures, SearchFault>
    requires orders { OrdersValues asking.now.model.now asking.now.prefs.now }
    requires plan { plan.now ≡ plan_of asking.now.model.now }
    requires marks { length marks.now ≡ sum plan.now.sizes }
    ensures figures { (rows : List (List (Option ℕ)))
        → marks.now ≡ map (defined.is_served asking.now.model.now (defined.tests_of asking.now.model.now rows)) (demanded_tuples asking.now.model.now)
        → IfOk result (λ figures. figures ≡ set_figures asking.now.model.now rows (demanded_sets asking.now.model.now)) }
    ensures ends { Ends result (first_over asking.now.model.now asking.now.prefs.now asking.now.effort (demanded_tuples asking.now.model.now)) }
{
    plan.assert_invariant();
    let mut kept = Vec::new(asking.alloc);
    let mut figures = SetFigures::none();
    for set in 0..plan.set_count() {
        let servable = count_servable(asking, &mut kept, plan, set)?;
        let covered = count_covered(plan, marks, set);
        figures.add(servable, covered);
    }
    Ok(figures)
}

/// The figures of a given suite: of its rows, and of the demanded tuples that its tests cover among those that
/// some row of the model serves. Workers numbered from 1 mark what the tests serve; the figures are the same
/// for every number of workers from 1 to 64. Each demanded tuple is a question of the run, with the
/// preferences without a shuffle. Plan and suite have to be the model's; a suite has at most 2^20 rows.
///
/// # Errors
///
/// `Spent` with the first demanded tuple whose plain cost is above what a question may cost; where there is
/// one, no figures come. `NoMemory` where memory is refused.
pub fn measure<R: Threads + Sync, G: Gate + Sync>(
    rt: &R,
    alloc: Global,
    model: &TestModel,
    plan: &Plan,
    suite: &RowFile,
    workers: u32,
    effort: Effort,
    gate: &G,
) -> Result<Figures, SearchFault>
    requires plan { plan.now ≡ plan_of model.now }
    requires fits { All (λ row. FitsModel model.now row.cells) suite.now.rows }
    requires few { length suite.now.rows ≤ 2 ^ 20 }
    requires least { 1 ≤ workers }
    requires most { workers ≤ 64 }
    ensures figures { IfOk result (λ figures. figures_seen figures ≡ defined.figures model.now (suite_seen suite.now)) }
    ensures ends { Ends result (first_measured_over model.now effort) }
{
    let marks = mark_rows(rt, alloc, model, plan, suite, workers, gate)?;
    let prefs = Prefs::new(alloc, model, None)?;
    let asking = Asking {
        alloc,
        model,
        prefs: &prefs,
        effort,
    };
    let sets = measure_sets(&asking, plan, &marks)?;
    let rows = count_rows(model, suite);
    Ok(Figures {
        tests: rows.tests,
        incomplete: rows.incomplete,
        invalid: rows.invalid,
        sets: plan.set_count() as u64,
        tuples: count_tuples(plan) as u64,
        servable: sets.servable,
        covered: sets.covered,
        complete: sets.complete,
        at75: sets.at75,
        at50: sets.at50,
        at25: sets.at25,
    })
}

ghost use Rattle.std.specs.Prelude.{◌≡◌, true, All, IfOk, IsSomeAnd};
ghost use Rattle.cov_model.specs.Fits.{FitsModel};
ghost use Rattle.cov_model.specs.believed.Valid.{is_valid};
ghost use Rattle.row_text.specs.RowFiles.{suite_seen};
ghost use Rattle.shorter_suites.specs.believed.Shrinking.{IsShrunk};
ghost use Rattle.tuple_index.specs.Plan.{plan_of};
ghost use Rattle.jeldroft_generate.specs.believed.Asked.{AreRowsFor};
ghost use Rattle.jeldroft_generate.specs.Numbers.{AreNumbersFor, AreNumbersOf};

use crate::asked::effort_of;
use crate::tests::Tests;
use cov_model::{Prefs, Rows, TestModel};
use jeldroft_args::{Generate, Shrinking};
use jeldroft_words::FewerTests;
use row_text::RowFile;
use std::alloc::Global;
use suite_shrink::{PlannedModel, ShrinkOpts, copied_rows, shrink};
use tuple_index::Plan;
use value_text::NoMemory;

// How long is searched, and what a question may cost, as it is asked for.
fn opts_of(shrinking: Shrinking, budget: Option<u64>) -> ShrinkOpts {
    ShrinkOpts {
        random: shrinking.random,
        rounds: shrinking.rounds,
        effort: effort_of(budget),
        spread: shrinking.spread,
    }
}

// Fewer tests in place of those that grew, in which the seed rows stay.
fn fewer_tests(
    alloc: Global,
    args: &Generate,
    shrinking: Shrinking,
    model: &TestModel,
    plan: &Plan,
    seeds: &RowFile,
    grown: &Rows,
) -> Result<Tests, NoMemory>
    requires plan { plan.now ≡ plan_of model.now }
    requires valid { All (λ row. is_valid model.now row ≡ true) grown.now }
    requires seeds { All (λ seed. FitsModel model.now seed.cells) seeds.now.rows }
    ensures shrunk { IfOk result (λ tests. IsShrunk model.now grown.now (suite_seen seeds.now) tests.rows) }
    ensures numbers { IfOk result (λ tests. IsSomeAnd tests.fewer (AreNumbersOf model.now grown.now tests.rows)) }
    ensures fit { IfOk result (λ tests. All (FitsModel model.now) tests.rows) }
{
    let prefs = Prefs::new(alloc, model, args.shuffle)?;
    let of = PlannedModel {
        model,
        prefs: &prefs,
        plan,
    };
    let seeds = copied_rows(alloc, model, seeds)?;
    let opts = opts_of(shrinking, args.budget);
    let shrunk = shrink(alloc, &of, grown, &seeds, &opts)?;
    let fewer = FewerTests {
        given: grown.len(),
        tests: shrunk.rows.len(),
        least: shrunk.least,
    };
    Ok(Tests {
        rows: shrunk.rows,
        fewer: Some(fewer),
    })
}

/// The tests of the table: those that grew from the seeds, or fewer in their place, where that is asked for.
///
/// # Errors
///
/// `NoMemory` where memory was refused.
pub(crate) fn tests_of(
    alloc: Global,
    args: &Generate,
    model: &TestModel,
    plan: &Plan,
    seeds: &RowFile,
    grown: Rows,
) -> Result<Tests, NoMemory>
    requires plan { plan.now ≡ plan_of model.now }
    requires valid { All (λ row. is_valid model.now row ≡ true) grown }
    requires fit { All (FitsModel model.now) grown }
    requires seeds { All (λ seed. FitsModel model.now seed.cells) seeds.now.rows }
    ensures are { IfOk result (λ tests. AreRowsFor args.now.shrinking model.now grown (suite_seen seeds.now) tests.rows) }
    ensures numbers { IfOk result (λ tests. AreNumbersFor args.now.shrinking model.now grown tests.rows tests.fewer) }
    ensures fit { IfOk result (λ tests. All (FitsModel model.now) tests.rows) }
{
    match args.shrinking {
        Some(shrinking) => fewer_tests(alloc, args, shrinking, model, plan, seeds, &grown),
        None => Ok(Tests {
            rows: grown,
            fewer: None,
        }),
    }
}

ghost use Rattle.std.specs.Prelude.{◌≡◌, true, All, IfOk};
ghost use Rattle.cov_model.specs.Fits.{FitsModel};
ghost use Rattle.cov_model.specs.believed.Valid.{is_valid};
ghost use Rattle.row_text.specs.RowFiles.{suite_seen};
ghost use Rattle.shorter_suites.specs.believed.Bounds.{least_needed};
ghost use Rattle.shorter_suites.specs.believed.Shrinking.{IsShrunk};
ghost use Rattle.tuple_index.specs.Plan.{plan_of};

use cov_model::{Prefs, Rows, TestModel};
use definitions::Effort;
use jeldroft_args::Shrink;
use row_text::RowFile;
use std::alloc::Global;
use suite_shrink::{PlannedModel, ShrinkOpts, Shrunk, copied_rows, shrink};
use tuple_index::Plan;
use value_text::NoMemory;

// How long is searched, and what a question may cost, as it is asked for.
fn opts_of(args: &Shrink) -> ShrinkOpts {
    let effort = match args.budget {
        Some(budget) => Effort::Within(budget),
        None => Effort::Full,
    };
    ShrinkOpts {
        random: args.shrinking.random,
        rounds: args.shrinking.rounds,
        spread: args.shrinking.spread,
        effort,
    }
}

/// Fewer tests in place of the given ones, which contain the seed rows that the given ones do.
///
/// # Errors
///
/// `NoMemory` where memory is refused.
pub(crate) fn fewer_tests(
    alloc: Global,
    model: &TestModel,
    plan: &Plan,
    given: &Rows,
    seeds: &RowFile,
    args: &Shrink,
) -> Result<Shrunk, NoMemory>
    requires plan { plan.now ≡ plan_of model.now }
    requires valid { All (λ row. is_valid model.now row ≡ true) given.now }
    requires seeds { All (λ row. FitsModel model.now row.cells) seeds.now.rows }
    ensures shrunk { IfOk result (λ shrunk. IsShrunk model.now given.now (suite_seen seeds.now) shrunk.rows) }
    ensures least { IfOk result (λ shrunk. shrunk.least ≡ least_needed model.now given.now) }
{
    let prefs = Prefs::new(alloc, model, None)?;
    let of = PlannedModel {
        model,
        prefs: &prefs,
        plan,
    };
    let seeds = copied_rows(alloc, model, seeds)?;
    shrink(alloc, &of, given, &seeds, &opts_of(args))
}

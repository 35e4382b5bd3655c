ghost use Rattle.std.specs.Prelude.{◌≡◌, ◌⊎◌, ◌≤◌, ◌^◌, ℕ, List, Option, None, Some, All, length, option_map, IfOk, IfErr, OnOk};
ghost use Rattle.cov_model.specs.Fits.{FitsModel};
ghost use Rattle.definitions.specs.declared.effort.Effort.TheVariants as efforts;
ghost use Rattle.feasibility.specs.Ends.{EndsBy};
ghost use Rattle.ipog_grow.specs.Suites.{IsSuiteOf};
ghost use Rattle.row_text.specs.RowFiles.{seeds_seen};
ghost use Rattle.tuple_index.specs.Plan.{plan_of};
ghost use Rattle.tuple_index.specs.believed.PlanFault.{limit_passed};
ghost use Rattle.command_line.specs.believed.Stops.{stop_of_plan};
ghost use Rattle.pict_cli.specs.believed.Runs.{spent_at};
ghost use Rattle.pict_cli.specs.Steps.{IsDueOrNoMemory};
ghost use Rattle.jeldroft_args.specs.Ranges.{AreThreads};
ghost use Rattle.jeldroft_files.specs.believed.Failures.{status_of};
ghost use Rattle.jeldroft_files.specs.declared.failure.Cause.TheVariants as causes;
ghost use Rattle.jeldroft_generate.specs.believed.Asked.{effort_of, orders_of, proof_asked, question_over};
ghost use Rattle.jeldroft_generate.specs.Steps.{EndsAt};

use crate::asked::{effort_of, proof_asked};
use command_line::Stop;
use cov_model::{Prefs, TestModel};
use definitions::Effort;
use feasibility::SearchFault;
use ipog_grow::{GrowOpts, Suite, generate};
use jeldroft_args::Generate;
use jeldroft_files::Failure;
use row_text::RowFile;
use std::alloc::Global;
use std::thread::Threads;
use tuple_index::Plan;
use worker_gate::OpenGate;

/// The plan of what a model demands, which is the model of this file.
///
/// # Errors
///
/// `TooMany` where the model demands too much, `OutOfMemory` where memory was refused.
pub(crate) fn make_plan<'n>(
    alloc: Global,
    model: &TestModel,
    file: &'n str,
) -> Result<Plan, Failure<'n>>
    ensures plan { IfOk result (λ plan. plan ≡ plan_of model.now) }
    ensures within { OnOk result (limit_passed model.now ≡ None) }
    ensures stops { IfErr result (λ failure. EndsAt (option_map stop_of_plan (limit_passed model.now)) failure.cause) }
{
    match Plan::new(alloc, model) {
        Ok(plan) => Ok(plan),
        Err(fault) => Err(Failure::at(file, Stop::from(fault))),
    }
}

// Why a command ends whose search ended early: without a budget for want of memory alone.
fn stop_of_search(fault: SearchFault, effort: Effort) -> Stop
    requires { effort ≡ efforts.Full → fault ≡ SearchFault.NoMemory }
    ensures { (over : Option (List (Option ℕ))) → EndsBy over fault → IsDueOrNoMemory (spent_at effort over) result }
{
    match fault {
        SearchFault::Spent(question) => match effort {
            Effort::Within(budget) => Stop::Spent(budget, question.cells),
            Effort::Full => unreachable!(),
        },
        SearchFault::NoMemory => Stop::OutOfMemory,
    }
}

/// The suite of a model within its plan, from seed tests.
///
/// # Errors
///
/// `Spent` where a question costs more than it may, `OutOfMemory` where memory was refused.
pub(crate) fn grow<'n, R: Threads + Sync>(
    rt: &R,
    alloc: Global,
    args: &'n Generate,
    model: &TestModel,
    plan: &Plan,
    seeds: &RowFile,
) -> Result<Suite, Failure<'n>>
    requires plan { plan.now ≡ plan_of model.now }
    requires seeds { All (λ seed. FitsModel model.now seed.cells) seeds.now.rows }
    requires few { length seeds.now.rows ≤ 2 ^ 20 }
    requires threads { AreThreads args.now.threads }
    ensures suite { IfOk result (IsSuiteOf model.now (orders_of args.now model.now) (seeds_seen seeds.now) (effort_of args.now.budget) (proof_asked args.now)) }
    ensures answered { OnOk result (question_over args.now model.now (seeds_seen seeds.now) ≡ None) }
    ensures stops { IfErr result (λ failure. EndsAt (spent_at (effort_of args.now.budget) (question_over args.now model.now (seeds_seen seeds.now))) failure.cause) }
{
    let effort = effort_of(args.budget);
    let prefs = Prefs::new(alloc, model, args.shuffle)?;
    let opts = GrowOpts {
        effort,
        workers: args.threads,
        proof: proof_asked(args),
    };
    match generate(rt, alloc, model, plan, &prefs, seeds, &opts, &OpenGate) {
        Ok(suite) => Ok(suite),
        Err(fault) => Err(Failure::at(args.model.name.as_str(), stop_of_search(fault, effort))),
    }
}

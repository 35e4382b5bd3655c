ghost use Rattle.std.specs.Prelude.{◌≡◌, ◌≤◌, ◌^◌, ℕ, List, Option, None, Some, Err, All, length, IfOk, IfErr, OnOk};
ghost use Rattle.cov_model.specs.Fits.{FitsModel};
ghost use Rattle.definitions.specs.believed.Figures.{figures};
ghost use Rattle.definitions.specs.believed.Search.{first_measured_over};
ghost use Rattle.feasibility.specs.Ends.{EndsBy as SearchEndsBy};
ghost use Rattle.outside_io.specs.believed.Seen.{KeepsFiles};
ghost use Rattle.row_text.specs.RowFiles.{suite_seen};
ghost use Rattle.row_text.specs.Told.{figures_seen};
ghost use Rattle.tuple_index.specs.Plan.{plan_of};
ghost use Rattle.tuple_index.specs.believed.PlanFault.{limit_passed};
ghost use Rattle.jeldroft_args.specs.Ranges.{AreThreads};
ghost use Rattle.jeldroft_files.specs.believed.Tables.{is_comma};
ghost use Rattle.jeldroft_inputs.specs.Inputs.{EndsBy};
ghost use Rattle.jeldroft_measure.specs.Due as due;
ghost use Rattle.jeldroft_measure.specs.believed.Due as believed_due;
ghost use Rattle.jeldroft_measure.specs.believed.Due.{effort_of, spent_at};

use command_line::Stop;
use cov_model::TestModel;
use coverage_measure::measure;
use definitions::Effort;
use feasibility::SearchFault;
use jeldroft_args::Measure;
use jeldroft_files::Failure;
use jeldroft_inputs::read_table_of_tests;
use jeldroft_words::FileNotes;
use outside_io::Folder;
use row_text::{Figures, RowFile};
use std::alloc::Global;
use std::thread::Threads;
use tuple_index::Plan;
use worker_gate::OpenGate;

// What a query may cost: without a budget whatever it takes.
fn effort_of(budget: Option<u64>) -> Effort
    ensures { result ≡ effort_of budget }
{
    match budget {
        Some(budget) => Effort::Within(budget),
        None => Effort::Full,
    }
}

// Why a command ends whose search ended early: without a budget for want of memory alone.
fn stop_of_search(fault: SearchFault, effort: Effort) -> Stop
    requires { effort ≡ Effort.Full → fault ≡ SearchFault.NoMemory }
    ensures { (over : Option (List (Option ℕ))) → SearchEndsBy over fault → due.StopsSearch effort over result }
{
    match fault {
        SearchFault::Spent(query) => match effort {
            Effort::Within(budget) => Stop::Spent(budget, query.cells),
            Effort::Full => unreachable!(),
        },
        SearchFault::NoMemory => Stop::OutOfMemory,
    }
}

// The plan of what a model demands, which is the model of this file.
fn make_plan<'n>(alloc: Global, model: &TestModel, file: &'n str) -> Result<Plan, Failure<'n>>
    ensures plan { IfOk result (λ plan. plan ≡ plan_of model.now) }
    ensures within { OnOk result (limit_passed model.now ≡ None) }
    ensures stops { IfErr result (λ failure. EndsBy (due.IsLimit model.now) failure.cause) }
{
    match Plan::new(alloc, model) {
        Ok(plan) => Ok(plan),
        Err(fault) => Err(Failure::at(file, Stop::from(fault))),
    }
}

// The figures of the tests in a table, by the plan of their model.
fn figures_of<'n, R: Threads + Sync>(
    rt: &R,
    alloc: Global,
    model: &TestModel,
    plan: &Plan,
    tests: &RowFile,
    args: &'n Measure,
) -> Result<Figures, Failure<'n>>
    requires plan { plan.now ≡ plan_of model.now }
    requires fits { All (λ row. FitsModel model.now row.cells) tests.now.rows }
    requires few { length tests.now.rows ≤ 2 ^ 20 }
    requires threads { AreThreads args.now.threads }
    ensures figures { IfOk result (λ given. figures_seen given ≡ figures model.now (suite_seen tests.now)) }
    ensures answered { OnOk result (spent_at (effort_of args.now.budget) (first_measured_over model.now (effort_of args.now.budget)) ≡ None) }
    ensures stops { IfErr result (λ failure. EndsBy (due.IsSpent (effort_of args.now.budget) (first_measured_over model.now (effort_of args.now.budget))) failure.cause) }
{
    let effort = effort_of(args.budget);
    match measure(
        rt,
        alloc,
        model,
        plan,
        tests,
        args.threads,
        effort,
        &OpenGate,
    ) {
        Ok(figures) => Ok(figures),
        Err(fault) => Err(Failure::at(args.model.name.as_str(), stop_of_search(fault, effort))),
    }
}

/// The figures of the tests in the table, with the notes on it.
///
/// # Errors
///
/// `TooMany` where the model demands too much, a failure of the table, `Spent` where a query costs too much,
/// `OutOfMemory` where memory was refused.
pub(crate) fn measured<'n, R: Threads + Sync, F: Folder>(
    rt: &R,
    alloc: Global,
    model: &TestModel,
    args: &'n Measure,
    files: &mut F,
    notes: &mut FileNotes,
) -> Result<Figures, Failure<'n>>
    requires { AreThreads args.now.threads }
    ensures figures { IfOk result (λ figures. (table : Option (List ℕ)) → (F.seen files.old).files args.now.table ≡ Some table →
        believed_due.measured (effort_of args.now.budget) model.now (is_comma args.now.delimiter args.now.table) table ≡ Ok (figures_seen figures)) }
    ensures stops { IfErr result (λ failure. (table : Option (List ℕ)) → (F.seen files.old).files args.now.table ≡ Some table →
        EndsBy (λ cause. believed_due.measured (effort_of args.now.budget) model.now (is_comma args.now.delimiter args.now.table) table ≡ Err cause) failure.cause) }
    ensures files { KeepsFiles (F.seen files.old) (F.seen files.new) }
{
    let plan = make_plan(alloc, model, args.model.name.as_str())?;
    let name = args.table.as_str();
    let tests = read_table_of_tests(alloc, name, args.delimiter, model, files, &mut notes.table)?;
    let figures = figures_of(rt, alloc, model, &plan, &tests, args);
    notes.rows = tests.notes;
    figures
}

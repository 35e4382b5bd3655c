ghost use Rattle.std.specs.Prelude.{◌≡◌, ◌≤◌, ◌^◌, ℕ, List, [], length, All, Option, Some, None, Err, IfOk, IfErr, OnOk};
ghost use Rattle.cov_model.specs.Fits.{FitsModel};
ghost use Rattle.definitions.specs.believed.Figures.{figures};
ghost use Rattle.definitions.specs.believed.Search.{first_measured_over};
ghost use Rattle.definitions.specs.believed.Statistics.{figures_text};
ghost use Rattle.row_text.specs.RowFiles.{suite_seen};
ghost use Rattle.row_text.specs.Told.{figures_seen};
ghost use Rattle.tuple_index.specs.Plan.{plan_of};
ghost use Rattle.tuple_index.specs.believed.PlanFault.{limit_passed};
ghost use Rattle.pict_cli.specs.believed.Ends.{CountsOut, Prints, end_of, moment};
ghost use Rattle.pict_cli.specs.Ends.{Leaves};
ghost use Rattle.pict_cli.specs.believed.Modes.{Measure, RowSource, mode_of, row_source};
ghost use Rattle.pict_cli.specs.Options.{settings_seen};
ghost use Rattle.pict_cli.specs.Ranges.{FitRun};
ghost use Rattle.pict_cli.specs.believed.Runs.{RunsModel, spent_at};
ghost use Rattle.pict_cli.specs.Steps.{IsDueOrNoMemory};

use crate::growing::stop_of_search;
use crate::options::Opts;
use crate::preparing::prepare;
use crate::printing::written;
use command_line::Stop;
use cov_model::TestModel;
use coverage_measure::measure;
use model_lex::NoteList;
use outside_io::{Folder, Sink};
use row_text::{Figures, RowFile, RowMode, put_figures};
use std::alloc::Global;
use std::thread::Threads;
use tuple_index::Plan;
use value_text::OwnedList;
use worker_gate::OpenGate;

// The figures of a suite of a model within its plan (NIST IR 7878).
fn figures_of<R: Threads + Sync>(
    rt: &R,
    alloc: Global,
    model: &TestModel,
    plan: &Plan,
    suite: &RowFile,
    opts: &Opts<'_>,
) -> Result<Figures, Stop>
    requires plan { plan.now ≡ plan_of model.now }
    requires within { limit_passed model.now ≡ None }
    requires rows { All (λ row. FitsModel model.now row.cells) suite.now.rows }
    requires few { length suite.now.rows ≤ 2 ^ 20 }
    requires fit { FitRun (settings_seen opts.now) }
    ensures figures { IfOk result (λ given. figures_seen given ≡ figures model.now (suite_seen suite.now)) }
    ensures answered { OnOk result (first_measured_over model.now opts.now.effort ≡ None) }
    ensures stops { IfErr result (IsDueOrNoMemory (spent_at opts.now.effort (first_measured_over model.now opts.now.effort))) }
{
    match measure(
        rt,
        alloc,
        model,
        plan,
        suite,
        opts.workers,
        opts.effort,
        &OpenGate,
    ) {
        Ok(figures) => Ok(figures),
        Err(fault) => Err(stop_of_search(fault, opts.effort)),
    }
}

// Writes figures.
fn print_figures<O: Sink>(figures: &Figures, out: &mut O) -> Result<(), Stop>
    ensures prints { Prints (figures_text (figures_seen figures.now)) (O.seen out.old) (O.seen out.new) (end_of result) }
    ensures faults { CountsOut (end_of result) (O.seen out.old) (O.seen out.new) }
    ensures stops { IfErr result (λ stop. stop ≡ Stop.CannotWriteReport) }
{
    written(put_figures(figures, out))
}

/// Measures the suite in the row file of a run, and writes its figures, with the notes on the file. All memory is
/// taken before the first byte is written.
///
/// # Errors
///
/// `TooMany` where the model demands too much, a stop of the row file, `Spent` where a question costs too much,
/// `CannotWriteReport` where `out` failed, `OutOfMemory` where memory was refused.
pub(crate) fn run_measuring<R: Threads + Sync, F: Folder, O: Sink>(
    rt: &R,
    alloc: Global,
    model: &TestModel,
    opts: &Opts<'_>,
    files: &mut F,
    out: &mut O,
    row_notes: &mut NoteList,
) -> Result<(), Stop>
    requires fit { FitRun (settings_seen opts.now) }
    requires mode { (name : List ℕ) × (mode_of (settings_seen opts.now) ≡ Measure name) }
    requires none { row_notes.old ≡ [] }
    ensures runs { (seed : ℕ) (source : RowSource) → row_source (settings_seen opts.now) (F.seen files.old).files ≡ Some source →
        RunsModel (settings_seen opts.now) seed model.now source row_notes.new
        (moment (F.seen files.old) (O.seen out.old)) (moment (F.seen files.new) (O.seen out.new)) result }
    ensures leaves { (name : List ℕ) → Leaves (settings_seen opts.now) name (moment (F.seen files.old) (O.seen out.old)) (moment (F.seen files.new) (O.seen out.new)) (end_of result) }
{
    model.assert_invariant();
    let ready = prepare(alloc, model, opts, RowMode::Suite, files)?;
    let plan = ready.plan;
    let suite = RowFile {
        rows: ready.file.rows,
        notes: OwnedList::new(alloc),
    };
    *row_notes = ready.file.notes;
    let figures = figures_of(rt, alloc, model, &plan, &suite, opts)?;
    print_figures(&figures, out)
}

ghost use Rattle.std.specs.Prelude.{◌≡◌, ◌≤◌, ◌^◌, true, ℕ, List, [], All, Some, None, Err, length, IfOk, IfErr, OnOk};
ghost use Rattle.outside_io.specs.believed.Seen.{KeepsFiles, KeepsReadFaults, KeepsWriteFaults};
ghost use Rattle.cov_model.specs.Fits.{FitsModel};
ghost use Rattle.tuple_index.specs.Plan.{plan_of};
ghost use Rattle.tuple_index.specs.believed.PlanFault.{limit_passed};
ghost use Rattle.row_text.specs.Readings.{mode_seen};
ghost use Rattle.pict_cli.specs.believed.Ends.{CountsReads, end_of};
ghost use Rattle.pict_cli.specs.believed.Modes.{RowSource, makes_plan, mode_of, row_source};
ghost use Rattle.pict_cli.specs.Modes.{row_mode};
ghost use Rattle.pict_cli.specs.Options.{settings_seen};
ghost use Rattle.pict_cli.specs.believed.Runs.{EndsBehind};
ghost use Rattle.pict_cli.specs.Steps.{HoldsRows, IsOfRows};

use crate::options::Opts;
use crate::rows::load_rows;
use command_line::Stop;
use cov_model::TestModel;
use outside_io::Folder;
use row_text::{RowFile, RowMode};
use std::alloc::Global;
use tuple_index::Plan;

/// What a run has before it searches.
#[derive(Drop)]
pub(crate) struct Prepared {
    /// The plan of the model's demand.
    pub plan: Plan,
    /// What its row file holds.
    pub file: RowFile,
}

/// The plan of a model and the rows of the row file of a run that reads it in this mode.
///
/// # Errors
///
/// `TooMany` where the model demands too much, a stop of the row file, `OutOfMemory` where memory was refused.
pub(crate) fn prepare<F: Folder>(
    alloc: Global,
    model: &TestModel,
    opts: &Opts<'_>,
    mode: RowMode,
    files: &mut F,
) -> Result<Prepared, Stop>
    requires plans { makes_plan (mode_of (settings_seen opts.now)) ≡ true }
    requires mode { mode_seen mode ≡ row_mode (mode_of (settings_seen opts.now)) }
    ensures plan { IfOk result (λ ready. ready.plan ≡ plan_of model.now) }
    ensures within { OnOk result (limit_passed model.now ≡ None) }
    ensures fit { IfOk result (λ ready. All (λ row. FitsModel model.now row.cells) ready.file.rows) }
    ensures few { IfOk result (λ ready. length ready.file.rows ≤ 2 ^ 20) }
    ensures rows { IfOk result (λ ready. (source : RowSource) → row_source (settings_seen opts.now) (F.seen files.old).files ≡ Some source →
        HoldsRows model.now (row_mode (mode_of (settings_seen opts.now))) source ready.file) }
    ensures no_fault { OnOk result (KeepsReadFaults (F.seen files.old) (F.seen files.new)) }
    ensures stops { IfErr result (λ stop. (seed : ℕ) (source : RowSource) → row_source (settings_seen opts.now) (F.seen files.old).files ≡ Some source →
        EndsBehind (settings_seen opts.now) seed model.now source [] (Err stop)) }
    ensures other { IfErr result IsOfRows }
    ensures reads { IfErr result (λ stop. (name : List ℕ) → CountsReads (settings_seen opts.now) name (end_of (Err stop)) (F.seen files.old) (F.seen files.new)) }
    ensures files { KeepsFiles (F.seen files.old) (F.seen files.new) }
    ensures write_faults { KeepsWriteFaults (F.seen files.old) (F.seen files.new) }
{
    let plan = Plan::new(alloc, model)?;
    let file = load_rows(alloc, opts.row_file(), mode, model, files)?;
    Ok(Prepared { plan, file })
}

ghost use Rattle.std.specs.Prelude.{◌≡◌, ℕ, List, [], None, Some, Err, Option, IfOk, IfErr, OnOk};
ghost use Rattle.suspect_tuples.specs.Results.{AreResultsOf};
ghost use Rattle.suspect_tuples.specs.believed.SuspectsText.{suspects_text};
ghost use Rattle.suspect_tuples.specs.Told.{candidates_of, suspects_of, suspects_seen};
ghost use Rattle.pict_cli.specs.believed.Ends.{CountsOut, Prints, Stopped, end_of, moment};
ghost use Rattle.pict_cli.specs.Ends.{Leaves};
ghost use Rattle.pict_cli.specs.believed.Modes.{RowSource, Suspect, mode_of, row_source};
ghost use Rattle.pict_cli.specs.Options.{settings_seen};
ghost use Rattle.pict_cli.specs.Ranges.{FitRun};
ghost use Rattle.pict_cli.specs.believed.Runs.{RunsModel, candidates_stop};
ghost use Rattle.pict_cli.specs.Steps.{IsDueOrNoMemory};

use crate::options::Opts;
use crate::printing::written;
use crate::results::load_results;
use command_line::{Quantity, Stop};
use cov_model::TestModel;
use model_lex::NoteList;
use outside_io::{Folder, Sink};
use std::alloc::Global;
use suspect_tuples::{ResultFile, SuspectFault, Suspects, put_suspects, suspects};

// The suspicious tuples of results.
fn suspects_in(alloc: Global, model: &TestModel, results: &ResultFile) -> Result<Suspects, Stop>
    requires { AreResultsOf model.now results.now }
    ensures found { IfOk result (λ found. suspects_seen found ≡ suspects_of model.now results.now) }
    ensures within { OnOk result (candidates_stop (candidates_of model.now results.now) ≡ None) }
    ensures stops { IfErr result (IsDueOrNoMemory (candidates_stop (candidates_of model.now results.now))) }
    ensures early { IfErr result (λ stop. end_of (Err stop) ≡ Stopped) }
{
    match suspects(alloc, model, results) {
        Ok(found) => Ok(found),
        Err(SuspectFault::TooMany(count)) => Err(Stop::TooMany(Quantity::SuspectCandidates, count)),
        Err(SuspectFault::NoMemory) => Err(Stop::OutOfMemory),
    }
}

// Writes suspicious tuples.
fn print_suspects<O: Sink>(found: &Suspects, out: &mut O) -> Result<(), Stop>
    ensures prints { Prints (suspects_text (suspects_seen found.now)) (O.seen out.old) (O.seen out.new) (end_of result) }
    ensures faults { CountsOut (end_of result) (O.seen out.old) (O.seen out.new) }
    ensures stops { IfErr result (λ stop. stop ≡ Stop.CannotWriteReport) }
{
    written(put_suspects(found, out))
}

/// Looks for suspicious tuples in the results of the file of this name, and writes their list, with the notes on the
/// file. All memory is taken before the first byte is written.
///
/// # Errors
///
/// A stop of the file of results, `TooMany` where there are too many candidates, `CannotWriteReport` where `out`
/// failed, `OutOfMemory` where memory was refused.
pub(crate) fn run_suspecting<F: Folder, O: Sink>(
    alloc: Global,
    model: &TestModel,
    opts: &Opts<'_>,
    name: &str,
    files: &mut F,
    out: &mut O,
    row_notes: &mut NoteList,
) -> Result<(), Stop>
    requires fit { FitRun (settings_seen opts.now) }
    requires mode { mode_of (settings_seen opts.now) ≡ Suspect name.now }
    requires none { row_notes.old ≡ [] }
    ensures runs { (seed : ℕ) (source : RowSource) → row_source (settings_seen opts.now) (F.seen files.old).files ≡ Some source →
        RunsModel (settings_seen opts.now) seed model.now source row_notes.new
        (moment (F.seen files.old) (O.seen out.old)) (moment (F.seen files.new) (O.seen out.new)) result }
    ensures leaves { (name : List ℕ) → Leaves (settings_seen opts.now) name (moment (F.seen files.old) (O.seen out.old)) (moment (F.seen files.new) (O.seen out.new)) (end_of result) }
{
    model.assert_invariant();
    let results = load_results(alloc, name, model, files)?;
    let found = suspects_in(alloc, model, &results);
    let rows = results.rows;
    *row_notes = rows.notes;
    let suspects = found?;
    print_suspects(&suspects, out)
}

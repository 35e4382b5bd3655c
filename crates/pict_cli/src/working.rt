ghost use Rattle.std.specs.Prelude.{◌≡◌, ℕ, List, [], Some};
ghost use Rattle.pict_cli.specs.Ends.{Leaves};
ghost use Rattle.pict_cli.specs.believed.Ends.{end_of, moment};
ghost use Rattle.pict_cli.specs.believed.Modes.{RowSource, row_source};
ghost use Rattle.pict_cli.specs.Options.{settings_seen};
ghost use Rattle.pict_cli.specs.Ranges.{FitRun};
ghost use Rattle.pict_cli.specs.believed.Runs.{RunsModel};

use crate::generating::run_generating;
use crate::measuring::run_measuring;
use crate::modes::Mode;
use crate::options::Opts;
use crate::suspecting::run_suspecting;
use command_line::Stop;
use cov_model::TestModel;
use model_lex::NoteList;
use outside_io::{Folder, Sink};
use std::alloc::Global;
use std::thread::Threads;

/// Does with a model what the options ask for, with the notes on the row file. All memory is taken before the first
/// byte is written.
///
/// # Errors
///
/// As from `run_generating`, `run_measuring` and `run_suspecting`.
pub(crate) fn run_model<R: Threads + Sync, F: Folder, O: Sink>(
    rt: &R,
    alloc: Global,
    model: &TestModel,
    opts: &Opts<'_>,
    seed_word: u64,
    files: &mut F,
    out: &mut O,
    row_notes: &mut NoteList,
) -> Result<(), Stop>
    requires fit { FitRun (settings_seen opts.now) }
    requires none { row_notes.old ≡ [] }
    ensures runs { (source : RowSource) → row_source (settings_seen opts.now) (F.seen files.old).files ≡ Some source → RunsModel (settings_seen opts.now) seed_word model.now source row_notes.new
        (moment (F.seen files.old) (O.seen out.old)) (moment (F.seen files.new) (O.seen out.new)) result }
    ensures leaves { (name : List ℕ) → Leaves (settings_seen opts.now) name (moment (F.seen files.old) (O.seen out.old)) (moment (F.seen files.new) (O.seen out.new)) (end_of result) }
{
    match opts.mode() {
        Mode::Generate(output) => run_generating(
            rt, alloc, model, opts, output, seed_word, files, out, row_notes,
        ),
        Mode::Measure(_) => run_measuring(rt, alloc, model, opts, files, out, row_notes),
        Mode::Suspect(name) => run_suspecting(alloc, model, opts, name, files, out, row_notes),
    }
}

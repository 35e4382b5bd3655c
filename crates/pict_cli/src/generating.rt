ghost use Rattle.std.specs.Prelude.{◌≡◌, ℕ, List, [], Some};
ghost use Rattle.pict_cli.specs.Ends.{Leaves};
ghost use Rattle.pict_cli.specs.believed.Ends.{end_of, moment};
ghost use Rattle.pict_cli.specs.believed.Modes.{Generate, RowSource, mode_of, row_source};
ghost use Rattle.pict_cli.specs.Options.{output_seen, settings_seen};
ghost use Rattle.pict_cli.specs.Ranges.{FitRun};
ghost use Rattle.pict_cli.specs.believed.Runs.{RunsModel};

use crate::modes::Output;
use crate::options::Opts;
use crate::preparing::prepare;
use crate::printing::write_suite;
use crate::suite::make_suite;
use command_line::Stop;
use cov_model::TestModel;
use model_lex::NoteList;
use outside_io::{Folder, Sink};
use row_text::{RowFile, RowMode};
use std::alloc::Global;
use std::thread::Threads;
use value_text::OwnedList;

/// Generates the suite of a model from the seed rows that the options name, and writes its proof and what is printed
/// of it, with the notes on the row file. All memory is taken before the first byte is written.
///
/// # Errors
///
/// `TooMany` where the model demands too much, a stop of the row file, `Spent` where a question costs too much,
/// `CannotWrite` where the folder failed, `CannotWriteReport` where `out` did, `OutOfMemory` where memory was
/// refused.
pub(crate) fn run_generating<R: Threads + Sync, F: Folder, O: Sink>(
    rt: &R,
    alloc: Global,
    model: &TestModel,
    opts: &Opts<'_>,
    output: Output,
    seed_word: u64,
    files: &mut F,
    out: &mut O,
    row_notes: &mut NoteList,
) -> Result<(), Stop>
    requires fit { FitRun (settings_seen opts.now) }
    requires mode { mode_of (settings_seen opts.now) ≡ Generate (output_seen output) }
    requires none { row_notes.old ≡ [] }
    ensures runs { (source : RowSource) → row_source (settings_seen opts.now) (F.seen files.old).files ≡ Some source → RunsModel (settings_seen opts.now) seed_word model.now source row_notes.new
        (moment (F.seen files.old) (O.seen out.old)) (moment (F.seen files.new) (O.seen out.new)) result }
    ensures leaves { (name : List ℕ) → Leaves (settings_seen opts.now) name (moment (F.seen files.old) (O.seen out.old)) (moment (F.seen files.new) (O.seen out.new)) (end_of result) }
{
    model.assert_invariant();
    let ready = prepare(alloc, model, opts, RowMode::Seed, files)?;
    let plan = ready.plan;
    let seeds = RowFile {
        rows: ready.file.rows,
        notes: OwnedList::new(alloc),
    };
    *row_notes = ready.file.notes;
    let mut suite = make_suite(rt, alloc, model, &plan, &seeds, opts, seed_word, row_notes)?;
    write_suite(model, opts, output, &mut suite, files, out)
}

ghost use Rattle.std.specs.Prelude.{◌≡◌, ℕ, List, Option, Some, option_map};
ghost use Rattle.outside_io.specs.believed.Seen.{KeepsFiles};
ghost use Rattle.jeldroft_args.specs.Ranges.{AreMarks, AreThreads, IsStrength};
ghost use Rattle.jeldroft_files.specs.believed.Failures.{status_of};
ghost use Rattle.jeldroft_files.specs.Runs.{IsCalledFor, answer_seen, end_status};
ghost use Rattle.jeldroft_files.specs.believed.Runs.{Leaves, RunsAs, moment};
ghost use Rattle.jeldroft_measure.specs.believed.Due.{Due, text_of};

use crate::measuring::measured;
use crate::telling::tell;
use crate::text::measure_text;
use cov_model::TestModel;
use jeldroft_args::Measure;
use jeldroft_files::{Failure, end_with, read_model_file, status_of_end};
use jeldroft_words::FileNotes;
use outside_io::{Folder, Sink};
use std::alloc::Global;
use std::thread::Threads;

// The text of the figures of the table, with the notes on it.
fn text_of<'n, R: Threads + Sync, F: Folder>(
    rt: &R,
    alloc: Global,
    model: &TestModel,
    args: &'n Measure,
    files: &mut F,
    notes: &mut FileNotes,
) -> Result<Vec<u8>, Failure<'n>>
    requires { AreThreads args.now.threads }
    ensures due { (table : Option (List ℕ)) → (F.seen files.old).files args.now.table ≡ Some table →
        IsCalledFor status_of (λ due. due ≡ text_of args.now model.now table) (answer_seen result) }
    ensures files { KeepsFiles (F.seen files.old) (F.seen files.new) }
{
    let figures = measured(rt, alloc, model, args, files, notes)?;
    let text = measure_text(alloc, &figures)?;
    Ok(text)
}

// The text of the figures, with the notes on the model file and on the table.
fn answer<'n, R: Threads + Sync, F: Folder>(
    rt: &R,
    alloc: Global,
    args: &'n Measure,
    files: &mut F,
    notes: &mut FileNotes,
) -> Result<Vec<u8>, Failure<'n>>
    requires marks { AreMarks args.now.model.marks }
    requires strength { IsStrength args.now.strength }
    requires threads { AreThreads args.now.threads }
    ensures due { (model table : Option (List ℕ)) → (F.seen files.old).files args.now.model.name ≡ Some model → (F.seen files.old).files args.now.table ≡ Some table →
        IsCalledFor status_of (Due args.now model table) (answer_seen result) }
    ensures files { KeepsFiles (F.seen files.old) (F.seen files.new) }
{
    let (model, found) = read_model_file(alloc, &args.model, args.strength, files)?;
    notes.model = found;
    let text = text_of(rt, alloc, &model, args, files, notes);
    notes.read = Some(model);
    text
}

// The name of the output file, if there is one.
fn output_of(args: &Measure) -> Option<&str>
    ensures { option_map (λ name. name.now) result ≡ args.now.output }
{
    match &args.output {
        Some(name) => Some(name.as_str()),
        None => None,
    }
}

// Measures, and writes the text, with the notes on the files.
fn write_figures<'n, R: Threads + Sync, F: Folder, O: Sink>(
    rt: &R,
    alloc: Global,
    args: &'n Measure,
    files: &mut F,
    out: &mut O,
    notes: &mut FileNotes,
) -> Result<(), Failure<'n>>
    requires marks { AreMarks args.now.model.marks }
    requires strength { IsStrength args.now.strength }
    requires threads { AreThreads args.now.threads }
    ensures runs { (model table : Option (List ℕ)) → (F.seen files.old).files args.now.model.name ≡ Some model → (F.seen files.old).files args.now.table ≡ Some table →
        RunsAs status_of (Due args.now model table) args.now.output
        (moment (F.seen files.old) (O.seen out.old)) (moment (F.seen files.new) (O.seen out.new)) (end_status result) }
    ensures leaves { Leaves args.now.output (moment (F.seen files.old) (O.seen out.old)) (moment (F.seen files.new) (O.seen out.new)) (end_status result) }
{
    let answer = answer(rt, alloc, args, files, notes);
    end_with(answer, output_of(args), files, out)
}

/// Measures how much of what is to be combined the tests in a table cover (NIST IR 7878), writes the figures in words,
/// and gives the exit status.
///
/// The steps come in this order: read of the model file, limits of what it demands, read of the table, the queries, write
/// of the text, to the output file or else to standard output. All memory is taken before the first byte is written.
/// Statuses: 0 where the figures were written, or the reader of standard output has gone away; 2 where the model or the
/// table is refused, a limit is passed, or the budget is spent; 3 where memory, a read or a write failed. Messages go to
/// `diag`, whose faults change nothing.
pub fn run_measure<R: Threads + Sync, F: Folder, O: Sink, E: Sink>(
    rt: &R,
    alloc: Global,
    args: &Measure,
    files: &mut F,
    out: &mut O,
    diag: &mut E,
) -> u8
    requires marks { AreMarks args.now.model.marks }
    requires strength { IsStrength args.now.strength }
    requires threads { AreThreads args.now.threads }

    // What is printed are the figures of the definition, and each status has its cause. Premise: the folder tells what
    // both files held.
    ensures runs { (model table : Option (List ℕ)) → (F.seen files.old).files args.now.model.name ≡ Some model → (F.seen files.old).files args.now.table ≡ Some table →
        RunsAs status_of (Due args.now model table) args.now.output
        (moment (F.seen files.old) (O.seen out.old)) (moment (F.seen files.new) (O.seen out.new)) result }

    // Without that premise: what stays as it was.
    ensures leaves { Leaves args.now.output (moment (F.seen files.old) (O.seen out.old)) (moment (F.seen files.new) (O.seen out.new)) result }
{
    let mut notes = FileNotes::none(alloc);
    let end = write_figures(rt, alloc, args, files, out, &mut notes);
    tell(alloc, args, &notes, &end, diag);
    status_of_end(&end)
}

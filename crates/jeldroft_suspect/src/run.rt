ghost use Rattle.std.specs.Prelude.{◌≡◌, ℕ, List, Option, Some, option_map};
ghost use Rattle.outside_io.specs.believed.Seen.{KeepsFiles};
ghost use Rattle.jeldroft_args.specs.Ranges.{AreMarks, IsStrength};
ghost use Rattle.jeldroft_files.specs.believed.Failures.{status_of};
ghost use Rattle.jeldroft_files.specs.Runs.{IsCalledFor, answer_seen, end_status};
ghost use Rattle.jeldroft_files.specs.believed.Runs.{Leaves, RunsAs, moment};
ghost use Rattle.jeldroft_suspect.specs.believed.Due.{Due, text_of};

use crate::suspecting::suspected;
use crate::telling::tell;
use crate::text::suspects_text;
use crate::told::Told;
use cov_model::TestModel;
use jeldroft_args::Suspect;
use jeldroft_files::{Failure, end_with, read_model_file, status_of_end};
use model_lex::NoteList;
use outside_io::{Folder, Sink};
use std::alloc::Global;

// The text of the combinations, with what is told of the table of results.
fn text_of<'n, F: Folder>(
    alloc: Global,
    model: &TestModel,
    args: &'n Suspect,
    files: &mut F,
    told: &mut Told,
) -> Result<Vec<u8>, Failure<'n>>
    ensures due { (table : Option (List ℕ)) → (F.seen files.old).files args.now.results ≡ Some table →
        IsCalledFor status_of (λ due. due ≡ text_of args.now model.now table) (answer_seen result) }
    ensures files { KeepsFiles (F.seen files.old) (F.seen files.new) }
{
    let suspects = suspected(alloc, model, args, files, told)?;
    let text = suspects_text(alloc, model, suspects.found.as_slice())?;
    Ok(text)
}

// The text of the combinations, with the notes on the model file and what is told of the table of results.
fn answer<'n, F: Folder>(
    alloc: Global,
    args: &'n Suspect,
    files: &mut F,
    model_notes: &mut NoteList,
    told: &mut Told,
) -> Result<Vec<u8>, Failure<'n>>
    requires marks { AreMarks args.now.model.marks }
    requires strength { IsStrength args.now.strength }
    ensures due { (model table : Option (List ℕ)) → (F.seen files.old).files args.now.model.name ≡ Some model → (F.seen files.old).files args.now.results ≡ Some table →
        IsCalledFor status_of (Due args.now model table) (answer_seen result) }
    ensures files { KeepsFiles (F.seen files.old) (F.seen files.new) }
{
    let (model, found) = read_model_file(alloc, &args.model, args.strength, files)?;
    *model_notes = found;
    text_of(alloc, &model, args, files, told)
}

// The name of the output file, if there is one.
fn output_of(args: &Suspect) -> Option<&str>
    ensures { option_map (λ name. name.now) result ≡ args.now.output }
{
    match &args.output {
        Some(name) => Some(name.as_str()),
        None => None,
    }
}

// Looks for the combinations, and writes the text, with what is told of the files.
fn write_suspects<'n, F: Folder, O: Sink>(
    alloc: Global,
    args: &'n Suspect,
    files: &mut F,
    out: &mut O,
    model_notes: &mut NoteList,
    told: &mut Told,
) -> Result<(), Failure<'n>>
    requires marks { AreMarks args.now.model.marks }
    requires strength { IsStrength args.now.strength }
    ensures runs { (model table : Option (List ℕ)) → (F.seen files.old).files args.now.model.name ≡ Some model → (F.seen files.old).files args.now.results ≡ Some table →
        RunsAs status_of (Due args.now model table) args.now.output
        (moment (F.seen files.old) (O.seen out.old)) (moment (F.seen files.new) (O.seen out.new)) (end_status result) }
    ensures leaves { Leaves args.now.output (moment (F.seen files.old) (O.seen out.old)) (moment (F.seen files.new) (O.seen out.new)) (end_status result) }
{
    let answer = answer(alloc, args, files, model_notes, told);
    end_with(answer, output_of(args), files, out)
}

/// Looks for the combinations of values that only failing tests have, the smallest ones, writes a line for each, by
/// falling number of failing tests that have it, and gives the exit status. Skipped tests don't count.
///
/// The steps come in this order: read of the model file, read of the table of results, the search, write of the text, to
/// the output file or else to standard output. All memory is taken before the first byte is written. Statuses: 0 where the
/// text was written, or the reader of standard output has gone away; 2 where the model or the table is refused, or there
/// are too many candidates; 3 where memory, a read or a write failed. Messages go to `diag`, whose faults change nothing.
pub fn run_suspect<F: Folder, O: Sink, E: Sink>(
    alloc: Global,
    args: &Suspect,
    files: &mut F,
    out: &mut O,
    diag: &mut E,
) -> u8
    requires marks { AreMarks args.now.model.marks }
    requires strength { IsStrength args.now.strength }

    // What is printed are the combinations of the definition, and each status has its cause. Premise: the folder tells
    // what both files held.
    ensures runs { (model table : Option (List ℕ)) → (F.seen files.old).files args.now.model.name ≡ Some model → (F.seen files.old).files args.now.results ≡ Some table →
        RunsAs status_of (Due args.now model table) args.now.output
        (moment (F.seen files.old) (O.seen out.old)) (moment (F.seen files.new) (O.seen out.new)) result }

    // Without that premise: what stays as it was.
    ensures leaves { Leaves args.now.output (moment (F.seen files.old) (O.seen out.old)) (moment (F.seen files.new) (O.seen out.new)) result }
{
    let mut model_notes = NoteList::new(alloc);
    let mut told = Told::nothing(alloc);
    let end = write_suspects(alloc, args, files, out, &mut model_notes, &mut told);
    tell(alloc, args, &model_notes, &told, &end, diag);
    status_of_end(&end)
}

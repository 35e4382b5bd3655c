ghost use Rattle.std.specs.Prelude.{◌≡◌, ℕ, List, Option, Some, None};
ghost use Rattle.jeldroft_args.specs.Ranges.{AreMarks};
ghost use Rattle.jeldroft_files.specs.believed.Runs.{Leaves, moment};
ghost use Rattle.jeldroft_lint.specs.believed.Linting.{LintsAs, Prints};
ghost use Rattle.jeldroft_lint.specs.Linting.{status_seen};

use crate::answer::answer;
use jeldroft_args::Lint;
use jeldroft_files::{Failure, write_text};
use jeldroft_words::tell_failure;
use outside_io::{Folder, Sink};
use std::alloc::Global;

// Reads the model file, prints what is told of its model, and gives the status.
fn print_findings<'n, F: Folder, O: Sink>(
    alloc: Global,
    args: &'n Lint,
    files: &mut F,
    out: &mut O,
) -> Result<u8, Failure<'n>>
    requires marks { AreMarks args.now.model.marks }
    ensures lints { (held : Option (List ℕ)) → (F.seen files.old).files args.now.model.name ≡ Some held → LintsAs args.now held (status_seen result) }
    ensures prints { (held : Option (List ℕ)) → (F.seen files.old).files args.now.model.name ≡ Some held → Prints args.now held (O.seen out.old) (O.seen out.new) (status_seen result) }
    ensures leaves { Leaves None (moment (F.seen files.old) (O.seen out.old)) (moment (F.seen files.new) (O.seen out.new)) (status_seen result) }
{
    match answer(alloc, args, files) {
        Ok(report) => {
            write_text(report.text.as_slice(), None, files, out)?;
            Ok(report.status)
        }
        Err(failure) => Err(failure),
    }
}

// The status of a run that ended so.
fn status_of(end: &Result<u8, Failure<'_>>) -> u8
    ensures { result ≡ status_seen end.now }
{
    match end {
        Ok(status) => *status,
        Err(failure) => failure.cause.status(),
    }
}

/// Tells what is wrong or odd about the model of a model file, on standard output, one line each or as an array of
/// objects, and gives the exit status: 0 where nothing is, 1 where something is, 2 where the model is refused, 3 where
/// memory, the read or the write failed.
///
/// All memory is taken before the first byte is written. Why nothing could be told goes to `diag`, whose faults change
/// nothing.
pub fn run_lint<F: Folder, O: Sink, E: Sink>(
    alloc: Global,
    args: &Lint,
    files: &mut F,
    out: &mut O,
    diag: &mut E,
) -> u8
    requires marks { AreMarks args.now.model.marks }

    // With 0 nothing is told of the model, and it has no finding; with 1 something is told of it; and with 2 the file is
    // refused. Premise: the folder tells what the file held.
    ensures lints { (held : Option (List ℕ)) → (F.seen files.old).files args.now.model.name ≡ Some held → LintsAs args.now held result }

    // With 0 and 1 what is printed is a line, or an object, for each finding of the model, and for hints, in the order of
    // lines. Premise as before.
    ensures prints { (held : Option (List ℕ)) → (F.seen files.old).files args.now.model.name ≡ Some held → Prints args.now held (O.seen out.old) (O.seen out.new) result }

    // Without it: no file changes, and a model that is refused prints nothing.
    ensures leaves { Leaves None (moment (F.seen files.old) (O.seen out.old)) (moment (F.seen files.new) (O.seen out.new)) result }
{
    let end = print_findings(alloc, args, files, out);
    if let Err(failure) = &end {
        tell_failure(alloc, failure, diag);
    }
    status_of(&end)
}

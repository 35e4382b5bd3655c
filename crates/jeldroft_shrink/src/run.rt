ghost use Rattle.std.specs.Prelude.{◌≡◌, ◌≢◌, true, false, Ok, IfOk, option_map};
ghost use Rattle.jeldroft_args.specs.Ranges.{AreMarks, IsStrength};
ghost use Rattle.jeldroft_files.specs.Runs.{Ends};
ghost use Rattle.jeldroft_files.specs.believed.Runs.{Leaves, RunsAs, moment};
ghost use Rattle.jeldroft_shrink.specs.believed.Causes.{status_of};
ghost use Rattle.jeldroft_shrink.specs.believed.Runs.{HeldFiles, Holds, IsDue, WritesShorter};
ghost use Rattle.jeldroft_shrink.specs.Steps.{answer_seen, end_status};
ghost use Rattle.jeldroft_shrink.specs.believed.Told.{SumsUp};
ghost use Rattle.jeldroft_words.specs.believed.Sums.{TellsLast, sum_line};

use crate::answer::{Table, make_answer};
use crate::cause::ShrinkFailure;
use crate::notes::Notes;
use crate::tell::{tell_answer, tell_failure, tell_warnings};
use jeldroft_args::Shrink;
use jeldroft_files::write_text;
use outside_io::{Folder, Sink};
use std::alloc::Global;

// The name of the output file.
fn output_name(args: &Shrink) -> Option<&str>
    ensures { option_map (λ name. name.now) result ≡ args.now.output }
{
    match &args.output {
        Some(name) => Some(name.as_str()),
        None => None,
    }
}

// Writes the table, if there is one.
fn write_answer<'n, F: Folder, O: Sink>(
    answer: Result<Table, ShrinkFailure<'n>>,
    output: Option<&'n str>,
    files: &mut F,
    out: &mut O,
) -> Result<Table, ShrinkFailure<'n>>
    ensures ends { Ends (answer_seen answer.entry) (option_map (λ name. name.now) output.entry)
        (moment (F.seen files.old) (O.seen out.old)) (moment (F.seen files.new) (O.seen out.new)) (end_status result) }
    ensures same { IfOk result (λ given. answer.entry ≡ Ok given) }
{
    let table = answer?;
    write_text(table.text.as_slice(), output, files, out)?;
    Ok(table)
}

// Tells what there is to tell of an end, and gives its exit status.
fn finish<E: Sink>(
    alloc: Global,
    end: &Result<Table, ShrinkFailure<'_>>,
    args: &Shrink,
    notes: &Notes,
    terminal: bool,
    diag: &mut E,
) -> u8
    ensures status { result ≡ end_status end.now }
    ensures told { terminal ≡ true → args.now.quiet ≡ false → IfOk end.now (λ table. TellsLast (sum_line table.numbers.tests
        table.numbers.given table.numbers.least) (E.seen diag.new)) }
{
    tell_warnings(args, notes, diag);
    match end {
        Ok(table) => {
            tell_answer(table, args, terminal, diag);
            0
        }
        Err(failure) => {
            tell_failure(alloc, failure, diag);
            failure.cause.status()
        }
    }
}

/// Runs `jeldroft shrink`, and gives its exit status: 0 where the table was written, 2 where the format is none of a
/// table, or the model file, its demand, the table or the file of seed rows is refused, 3 where memory was refused or a
/// read or a write failed.
///
/// The model, the table and the seed rows are read in this order. What is worth telling of them goes to `diag`, whose
/// faults change nothing, and with status 0 a line that sums up, where `terminal` tells that someone reads it.
pub fn run_shrink<F: Folder, O: Sink, E: Sink>(
    alloc: Global,
    args: &Shrink,
    files: &mut F,
    out: &mut O,
    diag: &mut E,
    terminal: bool,
) -> u8
    requires marks { AreMarks args.now.model.marks }
    requires strength { IsStrength args.now.strength }

    // After status 0 the output got the table of a suite with at most as many tests as the given one has: every row of it
    // is valid, they serve each demanded tuple that the given rows serve, no two are the same, each seed row that a given
    // row contains is contained in one of them, and a proof that is accepted with the given table is accepted with them.
    // Premise: the folder tells what the files held.
    ensures shorter { result ≡ 0 → (held : HeldFiles) → Holds (F.seen files.old).files args.now held →
        WritesShorter args.now held (moment (F.seen files.old) (O.seen out.old)) (moment (F.seen files.new) (O.seen out.new)) }

    // On a terminal, unless silence is asked for, the last line that is told sums it up: the number of tests that were
    // given, of those in their place, and one below which no valid tests have this coverage. Premise: as above.
    ensures told { result ≡ 0 → terminal ≡ true → args.now.quiet ≡ false → (held : HeldFiles) → Holds (F.seen files.old).files args.now held →
        SumsUp args.now held (moment (F.seen files.old) (O.seen out.old)) (moment (F.seen files.new) (O.seen out.new)) (E.seen diag.new) }

    // Each status has its cause, and each cause its status, unless memory or a device fails. Premise: as above.
    ensures runs { (held : HeldFiles) → Holds (F.seen files.old).files args.now held →
        RunsAs status_of (IsDue args.now held) args.now.output
        (moment (F.seen files.old) (O.seen out.old)) (moment (F.seen files.new) (O.seen out.new)) result }

    // Without a premise: no file changes but the output file, and this one with status 0 alone; no status comes but 0, 2
    // and 3.
    ensures leaves { Leaves args.now.output (moment (F.seen files.old) (O.seen out.old)) (moment (F.seen files.new) (O.seen out.new)) result }
    ensures answered { result ≢ 1 }
{
    let mut notes = Notes::none(alloc);
    let answer = make_answer(alloc, args, files, &mut notes);
    let end = write_answer(answer, output_name(args), files, out);
    finish(alloc, &end, args, &notes, terminal, diag)
}

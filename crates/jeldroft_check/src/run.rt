ghost use Rattle.std.specs.Prelude.{◌≡◌, None, OnOk, IfErr};
ghost use Rattle.outside_io.specs.believed.Seen.{KeepsFiles};
ghost use Rattle.definitions.specs.believed.Laws.{IsCertified};
ghost use Rattle.check_cli.specs.believed.Runs.{HeldFiles};
ghost use Rattle.check_cli.specs.Runs.{answer_text};
ghost use Rattle.jeldroft_args.specs.Ranges.{AreMarks, AreThreads, IsStrength};
ghost use Rattle.jeldroft_files.specs.believed.Failures.{status_of};
ghost use Rattle.jeldroft_files.specs.believed.Runs.{IsPrinted, Leaves, moment};
ghost use Rattle.jeldroft_check.specs.believed.Runs.{ChecksAs, Due, HasReadings, Holds};
ghost use Rattle.jeldroft_check.specs.Steps.{Ends, answer_status, end_status};

use crate::judging::verdict_of;
use crate::notes::Notes;
use crate::telling::tell;
use check_cli::put_verdict;
use command_line::Stop;
use jeldroft_args::Check;
use jeldroft_files::Failure;
use outside_io::{Folder, Sink, WriteAnswer};
use proof_check::Verdict;
use std::alloc::Global;
use std::thread::Threads;

// Prints the line of a verdict.
fn print<'n, O: Sink>(verdict: &Verdict, out: &mut O) -> Result<(), Failure<'n>>
    ensures printed { OnOk result (IsPrinted (answer_text verdict.now) (O.seen out.old) (O.seen out.new)) }
    ensures failed { IfErr result (λ failure. status_of failure.cause ≡ 3) }
{
    match put_verdict(verdict, out) {
        WriteAnswer::Done => Ok(()),
        WriteAnswer::Failed => {
            if out.is_gone() {
                Ok(())
            } else {
                Err(Failure::at("", Stop::CannotWriteReport))
            }
        }
    }
}

// Checks the files, and prints the line of their verdict.
fn check<'n, R: Threads + Sync, F: Folder, O: Sink>(
    rt: &R,
    alloc: Global,
    args: &'n Check,
    files: &mut F,
    out: &mut O,
    notes: &mut Notes,
) -> Result<Verdict, Failure<'n>>
    requires marks { AreMarks args.now.model.marks }
    requires strength { IsStrength args.now.strength }
    requires threads { AreThreads args.now.threads }
    ensures ends { (held : HeldFiles) → Holds (F.seen files.old).files args.now held → Ends args.now held (O.seen out.old) (O.seen out.new) result }
    ensures unprinted { IfErr result (λ failure. status_of failure.cause ≡ 2 → O.seen out.new ≡ O.seen out.old) }
    ensures files { KeepsFiles (F.seen files.old) (F.seen files.new) }
{
    let verdict = verdict_of(rt, alloc, args, files, notes)?;
    print(&verdict, out)?;
    Ok(verdict)
}

// The exit status of a verdict.
fn status_of_verdict(verdict: &Verdict) -> u8
    ensures { result ≡ answer_status verdict.now }
{
    match verdict {
        Verdict::Accepted(..) => 0,
        Verdict::BadRow(_)
        | Verdict::BadProof(_)
        | Verdict::BadOmission(_)
        | Verdict::Uncovered(_) => 1,
    }
}

// The exit status of the command that ended so.
fn status_of_end(end: &Result<Verdict, Failure<'_>>) -> u8
    ensures { result ≡ end_status end.now }
{
    match end {
        Ok(verdict) => status_of_verdict(verdict),
        Err(failure) => failure.cause.status(),
    }
}

/// Checks whether a table is the suite that a model asks for, prints the line of the verdict, and gives the exit status.
///
/// The steps come in this order: read of the model file, of the table and of the proof, model, limits of what it demands,
/// table, verdict, write of its line to `out`. All memory is taken before the first byte is written. Statuses: 0 where the
/// table and the proof are accepted; 1 where they are refused, and then the line says why; 2 where the model file or the
/// table is refused, or a limit is passed; 3 where memory, a read or a write failed. A reader of `out` that has gone away
/// changes no status. With 1, 2 and 3 `diag` is told why,
/// in names of the model, and its faults change nothing.
pub fn run_check<R: Threads + Sync, F: Folder, O: Sink, E: Sink>(
    rt: &R,
    alloc: Global,
    args: &Check,
    files: &mut F,
    out: &mut O,
    diag: &mut E,
) -> u8
    requires marks { AreMarks args.now.model.marks }
    requires strength { IsStrength args.now.strength }
    requires threads { AreThreads args.now.threads }

    // The headline: after status 0 the model file spells a model, every row of the table is valid, and each demanded tuple
    // is served by one of the rows, or the proof lists it and no row serves it. Premise: the folder tells what the files
    // held.
    ensures certified { result ≡ 0 → (held : HeldFiles) → Holds (F.seen files.old).files args.now held → HasReadings args.now IsCertified held }

    // The verdict that the files call for is told, and each status has its cause. Premise: as of the headline.
    ensures checks { (held : HeldFiles) → Holds (F.seen files.old).files args.now held →
        ChecksAs (Due args.now held) (moment (F.seen files.old) (O.seen out.old)) (moment (F.seen files.new) (O.seen out.new)) result }

    // Without that premise: no file changes, and with status 2 nothing is printed.
    ensures leaves { Leaves None (moment (F.seen files.old) (O.seen out.old)) (moment (F.seen files.new) (O.seen out.new)) result }
{
    let mut notes = Notes::none(alloc);
    let end = check(rt, alloc, args, files, out, &mut notes);
    tell(alloc, args, &end, &notes, diag);
    status_of_end(&end)
}

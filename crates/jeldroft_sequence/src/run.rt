ghost use Rattle.std.specs.Prelude.{◌≡◌, ◌≤◌, ℕ, List, None, Option, Some, option_map};
ghost use Rattle.seq_cover.specs.believed.Covering.{IsAccepted};
ghost use Rattle.jeldroft_files.specs.Runs.{Ends};
ghost use Rattle.jeldroft_files.specs.believed.Runs.{IsWritten, Leaves, RunsAs, moment};
ghost use Rattle.jeldroft_sequence.specs.believed.Runs.{JudgesAs};
ghost use Rattle.jeldroft_sequence.specs.believed.Sequences as sequences;
ghost use Rattle.jeldroft_sequence.specs.believed.Sequences.{CoversEvents, HasVerdict, IsJudgementDue, IsReportDue, output_of};
ghost use Rattle.jeldroft_sequence.specs.Steps.{Prints, end_status, report_seen, verdict_seen};

use crate::cause::SequenceCause;
use crate::ended::{Ended, status_of};
use crate::orders::orders;
use crate::told::tell;
use crate::verdict::{Verdict, make_verdict};
use jeldroft_args::Sequence;
use jeldroft_files::write_text;
use outside_io::{Folder, Sink};
use std::alloc::Global;

/// The name of the file of the report; `None` where it goes to standard output.
fn output_name(args: &Sequence) -> Option<&str>
    ensures { option_map (λ name. name.now) result ≡ args.now.output }
{
    match &args.output {
        Some(name) => Some(name.as_str()),
        None => None,
    }
}

/// Writes a report, where there is one.
///
/// # Errors
///
/// The cause of the answer, or `CannotWrite` where the folder or standard output failed.
fn write_report<F: Folder, O: Sink>(
    answer: Result<Vec<u8>, SequenceCause>,
    args: &Sequence,
    files: &mut F,
    out: &mut O,
) -> Result<Ended, SequenceCause>
    ensures { Ends (report_seen answer) args.now.output
        (moment (F.seen files.old) (O.seen out.old)) (moment (F.seen files.new) (O.seen out.new)) (end_status result) }
{
    let text = answer?;
    match write_text(text.as_slice(), output_name(args), files, out) {
        Ok(()) => Ok(Ended::Whole),
        Err(_) => Err(SequenceCause::CannotWrite),
    }
}

/// Prints a verdict, where there is one.
///
/// # Errors
///
/// The cause of the answer, or `CannotWrite` where standard output failed.
fn print_verdict<F: Folder, O: Sink>(
    answer: Result<Verdict, SequenceCause>,
    files: &mut F,
    out: &mut O,
) -> Result<Ended, SequenceCause>
    ensures { Prints (verdict_seen answer)
        (moment (F.seen files.old) (O.seen out.old)) (moment (F.seen files.new) (O.seen out.new)) (end_status result) }
{
    let verdict = answer?;
    match write_text(verdict.text.as_slice(), None, files, out) {
        Ok(()) => Ok(verdict.ended),
        Err(_) => Err(SequenceCause::CannotWrite),
    }
}

/// Tells why a run ended without a text, if it did, and gives the exit status. `bytes` are those of the file of events.
fn finish<E: Sink>(
    end: &Result<Ended, SequenceCause>,
    args: &Sequence,
    bytes: &[u8],
    diag: &mut E,
) -> u8
    ensures { result ≡ end_status end.now }
{
    if let Err(cause) = end {
        tell(*cause, args, bytes, diag);
    }
    status_of(end)
}

/// Runs `sequence` where no report is checked: writes a report of orders.
fn run_orders<F: Folder, O: Sink, E: Sink>(
    alloc: Global,
    args: &Sequence,
    files: &mut F,
    out: &mut O,
    diag: &mut E,
) -> u8
    requires { (2 ≤ args.now.length) × (args.now.length ≤ 3) }
    ensures runs { (held : Option (List ℕ)) → (F.seen files.old).files args.now.events ≡ Some held →
        RunsAs sequences.status_of (IsReportDue args.now.length held) args.now.output
        (moment (F.seen files.old) (O.seen out.old)) (moment (F.seen files.new) (O.seen out.new)) result }
    ensures covers { result ≡ 0 → (held : Option (List ℕ)) → (F.seen files.old).files args.now.events ≡ Some held →
        (text : List ℕ) × CoversEvents args.now.length held text × IsWritten args.now.output text
        (moment (F.seen files.old) (O.seen out.old)) (moment (F.seen files.new) (O.seen out.new)) }
    ensures leaves { Leaves args.now.output
        (moment (F.seen files.old) (O.seen out.old)) (moment (F.seen files.new) (O.seen out.new)) result }
{
    let mut bytes = Vec::new(alloc);
    let answer = orders(alloc, args, &mut bytes, files);
    let end = write_report(answer, args, files, out);
    finish(&end, args, bytes.as_slice(), diag)
}

/// Runs `sequence` where the report of this name is checked: prints the verdict on it.
fn run_check<F: Folder, O: Sink, E: Sink>(
    alloc: Global,
    args: &Sequence,
    report: &str,
    files: &mut F,
    out: &mut O,
    diag: &mut E,
) -> u8
    requires { (2 ≤ args.now.length) × (args.now.length ≤ 3) }
    ensures judges { (held other : Option (List ℕ)) → (F.seen files.old).files args.now.events ≡ Some held →
        (F.seen files.old).files report.now ≡ Some other →
        JudgesAs sequences.status_of (IsJudgementDue args.now.length held other) (O.seen out.old) (O.seen out.new) result }
    ensures leaves { Leaves None
        (moment (F.seen files.old) (O.seen out.old)) (moment (F.seen files.new) (O.seen out.new)) result }
{
    let mut bytes = Vec::new(alloc);
    let answer = make_verdict(alloc, args, report, &mut bytes, files);
    let end = print_verdict(answer, files, out);
    finish(&end, args, bytes.as_slice(), diag)
}

/// Runs `sequence`, and gives the exit status: 0 where a report of orders was written, or the one that is checked is
/// accepted; 1 where it is refused; 2 where the file of events is refused or a file has too many bytes; 3 where memory
/// was refused, a file could not be read, or the output could not be written.
///
/// The report goes to the output file, or else to standard output, and the verdict to standard output. All memory is
/// taken before the first byte is written. Why there is neither is told on `diag`, whose faults change nothing.
pub fn run_sequence<F: Folder, O: Sink, E: Sink>(
    alloc: Global,
    args: &Sequence,
    files: &mut F,
    out: &mut O,
    diag: &mut E,
) -> u8
    requires { (2 ≤ args.now.length) × (args.now.length ≤ 3) }

    // Where no report is checked: it writes the report of what is grown for the events, or ends by the first refusal of
    // their file. Premises: no report is checked; the folder tells what the file of events held.
    ensures orders { args.now.report ≡ None → (held : Option (List ℕ)) → (F.seen files.old).files args.now.events ≡ Some held →
        RunsAs sequences.status_of (IsReportDue args.now.length held) args.now.output
        (moment (F.seen files.old) (O.seen out.old)) (moment (F.seen files.new) (O.seen out.new)) result }

    // What was written covers: each line is that of a permitted order or of a sequence that is set aside with a cycle,
    // and each sequence is had by the order of a line, or is set aside by one, and then no permitted order has it. And
    // the checker accepts it. The premises are the same.
    ensures covers { args.now.report ≡ None → result ≡ 0 → (held : Option (List ℕ)) → (F.seen files.old).files args.now.events ≡ Some held →
        (text : List ℕ) × CoversEvents args.now.length held text × IsWritten args.now.output text
        (moment (F.seen files.old) (O.seen out.old)) (moment (F.seen files.new) (O.seen out.new)) }

    // Where a report is checked: it prints the verdict on it, or ends by the first refusal of the file of events.
    // Premises: this report is checked; the folder tells what both files held.
    ensures verdict { (name : List ℕ) (held report : Option (List ℕ)) → args.now.report ≡ Some name →
        (F.seen files.old).files args.now.events ≡ Some held → (F.seen files.old).files name ≡ Some report →
        JudgesAs sequences.status_of (IsJudgementDue args.now.length held report) (O.seen out.old) (O.seen out.new) result }

    // With status 0 it is accepted, and with status 1 it isn't. The premises are the same.
    ensures accepts { result ≡ 0 → (name : List ℕ) (held report : Option (List ℕ)) → args.now.report ≡ Some name →
        (F.seen files.old).files args.now.events ≡ Some held → (F.seen files.old).files name ≡ Some report →
        HasVerdict args.now.length held report IsAccepted }
    ensures refuses { result ≡ 1 → (name : List ℕ) (held report : Option (List ℕ)) → args.now.report ≡ Some name →
        (F.seen files.old).files args.now.events ≡ Some held → (F.seen files.old).files name ≡ Some report →
        HasVerdict args.now.length held report (λ verdict. ¬ IsAccepted verdict) }

    // Without premises: which names and which output it leaves as they were.
    ensures leaves { Leaves (output_of args.now.report args.now.output)
        (moment (F.seen files.old) (O.seen out.old)) (moment (F.seen files.new) (O.seen out.new)) result }
{
    match &args.report {
        Some(report) => run_check(alloc, args, report.as_str(), files, out, diag),
        None => run_orders(alloc, args, files, out, diag),
    }
}

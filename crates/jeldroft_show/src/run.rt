ghost use Rattle.std.specs.Prelude.{◌≡◌, None, option_map};
ghost use Rattle.jeldroft_args.specs.Ranges.{AreMarks, AreThreads, IsStrength};
ghost use Rattle.jeldroft_files.specs.Runs.{Ends};
ghost use Rattle.jeldroft_files.specs.believed.Runs.{moment};
ghost use Rattle.jeldroft_files.specs.Runs as runs;
ghost use Rattle.jeldroft_show.specs.believed.Certified.{HoldsCertified};
ghost use Rattle.jeldroft_show.specs.believed.Due.{Due, HeldFiles, Holds};
ghost use Rattle.jeldroft_show.specs.believed.Due as due;
ghost use Rattle.jeldroft_show.specs.believed.Shows.{LeavesShown, ShowsAs};
ghost use Rattle.jeldroft_show.specs.Steps.{IsSameAnswer, answer_seen, status_shown};

use crate::answer::{Answer, make_answer};
use crate::rows::form_of;
use crate::tell::tell_end;
use jeldroft_args::Show;
use jeldroft_files::{Failure, write_text};
use model_lex::NoteList;
use outside_io::{Folder, Sink};
use std::alloc::Global;
use std::thread::Threads;

// The name of the output file.
fn output_name(args: &Show) -> Option<&str>
    ensures { option_map (λ name. name.now) result ≡ args.now.output }
{
    match &args.output {
        Some(name) => Some(name.as_str()),
        None => None,
    }
}

// Writes the text of an answer, if there is one.
fn write_answer<'n, F: Folder, O: Sink>(
    answer: Result<Answer, Failure<'n>>,
    output: Option<&'n str>,
    files: &mut F,
    out: &mut O,
) -> Result<Answer, Failure<'n>>
    ensures ends { Ends (answer_seen answer.entry) (option_map (λ name. name.now) output.entry)
        (moment (F.seen files.old) (O.seen out.old)) (moment (F.seen files.new) (O.seen out.new)) (runs.end_status result) }
    ensures same { IsSameAnswer answer.entry result }
{
    let answer = answer?;
    write_text(answer.text.as_slice(), output, files, out)?;
    Ok(answer)
}

// The exit status of a command that ended so.
fn status_of(end: &Result<Answer, Failure<'_>>) -> u8
    ensures { result ≡ status_shown end.now }
{
    match end {
        Ok(answer) => { if answer.accepted { 0 } else { 1 } }
        Err(failure) => failure.cause.status(),
    }
}

/// Runs `jeldroft show`, and gives its exit status: 0 where the text was written, 1 where it was written in words or as a
/// page and the checker doesn't accept the suite, 2 where the model file, the table or the proof is refused, 3 where memory
/// was refused or a read or a write failed.
///
/// The model is read first, then the table, then, for words and pages, the proof; one that isn't named counts as one without
/// omissions. What is worth telling of them goes to `diag`, whose faults change nothing.
pub fn run_show<R: Threads + Sync, F: Folder, O: Sink, E: Sink>(
    rt: &R,
    alloc: Global,
    args: &Show,
    files: &mut F,
    out: &mut O,
    diag: &mut E,
) -> u8
    requires marks { AreMarks args.now.model.marks }
    requires strength { IsStrength args.now.strength }
    requires threads { AreThreads args.now.threads }

    // After status 0 the suite that is shown in words or as a page is accepted by the checker: every test is valid, and each
    // demanded combination is covered, or the proof lists it and no test can cover it. Premise: the folder tells what the
    // files held.
    ensures certified { result ≡ 0 → (held : HeldFiles) → due.form_of args.now.format ≡ None → Holds (F.seen files.old).files args.now held →
        HoldsCertified args.now held }

    // Each status has its cause, and each cause its status, unless memory or a device fails: the text is that of the
    // table's rows in the form, or in words or as a page that of the suite with the verdict of the checker, and then the status
    // is 0 exactly where the verdict accepts. Premise: the folder tells what the files held.
    ensures shows { (held : HeldFiles) → Holds (F.seen files.old).files args.now held →
        ShowsAs (Due (due.form_of args.now.format) args.now held) args.now.output
        (moment (F.seen files.old) (O.seen out.old)) (moment (F.seen files.new) (O.seen out.new)) result }

    // Without a premise: no file changes but the output file, and this one where a text comes; no status comes but 0 to 3.
    ensures leaves { LeavesShown args.now.output (moment (F.seen files.old) (O.seen out.old)) (moment (F.seen files.new) (O.seen out.new)) result }
{
    let form = form_of(args.format);
    let mut notes = NoteList::new(alloc);
    let answer = make_answer(rt, alloc, form, args, files, &mut notes);
    let end = write_answer(answer, output_name(args), files, out);
    tell_end(alloc, &end, args, notes.as_slice(), diag);
    status_of(&end)
}

ghost use Rattle.std.specs.Prelude.{◌≡◌, ◌≢◌, ◌⊎◌, ℕ, true, Ok, Err, IfOk, IfErr, MatchResult};
ghost use Rattle.outside_io.specs.believed.Seen.{KeepsFiles, KeepsReadFaults, KeepsWriteFaults, ReadFaultsRose, PutFaultsRose};
ghost use Rattle.outside_io.specs.believed.Puts.{Puts};
ghost use Rattle.outside_io.specs.declared.answers.WriteAnswer.TheVariants.{Done, Failed};
ghost use Rattle.definitions.specs.believed.Diagnostics.{word_line};
ghost use Rattle.definitions.specs.believed.Laws.{IsCertified};
ghost use Rattle.definitions.specs.believed.Settings.{Settings};
ghost use Rattle.definitions.specs.believed.Verdict.{verdict, verdict_text};
ghost use Rattle.command_line.specs.Ranges.{AreFit};
ghost use Rattle.command_line.specs.believed.Stops.{name_of};
ghost use Rattle.command_line.specs.believed.Stops as stops;
ghost use Rattle.command_line.specs.believed.Told.{Tells, end_text};
ghost use Rattle.command_line.specs.believed.Words.{opts_of, texts};
ghost use Rattle.check_cli.specs.RunSteps.{Answers, CountsOut, FitLimits, Reads, is_before, stop_of_check};
ghost use Rattle.check_cli.specs.believed.Runs.{AreRead, Ends, HasReadings, HasVerdict, HeldFiles, Holds, IsRefusal, FilesAreRefused, IsRun, IsStatus, IsTold};
ghost use Rattle.check_cli.specs.believed.Runs.{ReadFaults, ReadsRose, end_status, inputs_of, verdict_status};
ghost use Rattle.check_cli.specs.Runs.{answer_text};
ghost use Rattle.check_cli.specs.believed.Words.{IsWordFault, asked_by, names_in};
ghost use Rattle.check_cli.specs.Words.{names_seen, settings_seen};

use crate::verdict_line::{put_verdict, status_of_verdict};
use crate::words::{CheckOpts, read_check_words};
use command_line::{FileKind, FileNames, Stop, put_end, read_whole, refuse_words};
use outside_io::{Folder, Sink, WriteAnswer};
use proof_check::{CheckFault, Verdict, check_bytes};
use std::alloc::Global;
use std::marker::Model;
use std::thread::Threads;
use worker_gate::OpenGate;

// The bytes of the three files of a run.
#[derive(Drop)]
struct Contents {
    model: Vec<u8>,
    report: Vec<u8>,
    proof: Vec<u8>,
}

impl Model for Contents {
    ghost use Rattle.check_cli.specs.believed.Runs.{Inputs};

    ghost Value = { Inputs };

    ghost view = { λ c. record { model = c.model.items; report = c.report.items; proof = c.proof.items } };
}

// Why a run stops, where this is why there is no verdict.
fn stop_of_check(fault: CheckFault) -> Stop
    ensures { result ≡ stop_of_check fault }
{
    match fault {
        CheckFault::BadModel(refusal) => Stop::from(refusal),
        CheckFault::Limits(limit) => Stop::from(limit),
        CheckFault::Report(refusal) => Stop::from(refusal),
        CheckFault::NoMemory => Stop::OutOfMemory,
    }
}

// The bytes of the three files, which are read in this order: model, report, proof.
fn read_files<F: Folder>(
    alloc: Global,
    opts: &CheckOpts<'_>,
    files: &mut F,
) -> Result<Contents, Stop>
    ensures reads { (held : HeldFiles) → Holds (F.seen files.old).files (names_seen opts.now) held → Reads opts.now.opts held result }
    ensures within { IfOk result FitLimits }
    ensures before { IfErr result (λ stop. is_before stop ≡ true) }
    ensures cannot_read { (kind : FileKind) → result ≡ Err (Stop.CannotRead kind) →
        ReadFaultsRose (name_of (names_seen opts.now) kind) (F.seen files.old) (F.seen files.new) }
    ensures no_fault { ((kind : FileKind) → result ≢ Err (Stop.CannotRead kind)) → KeepsReadFaults (F.seen files.old) (F.seen files.new) }
    ensures files { KeepsFiles (F.seen files.old) (F.seen files.new) }
    ensures write_faults { KeepsWriteFaults (F.seen files.old) (F.seen files.new) }
{
    let model = read_whole(alloc, FileKind::Model, opts.model, files)?;
    let report = read_whole(alloc, FileKind::Rows, opts.report, files)?;
    let proof = read_whole(alloc, FileKind::Proof, opts.proof, files)?;
    Ok(Contents {
        model,
        report,
        proof,
    })
}

// The verdict on the bytes of the three files, or the first refusal of the model file, of its demand, or of the
// report.
fn judge<R: Threads + Sync>(
    rt: &R,
    alloc: Global,
    opts: &CheckOpts<'_>,
    contents: &Contents,
) -> Result<Verdict, Stop>
    requires within { FitLimits contents.now }
    requires fit { AreFit (settings_seen opts.now) }
    ensures answers { (held : HeldFiles) → inputs_of held ≡ Ok contents.now → Answers opts.now.opts held result }
    ensures before { IfErr result (λ stop. is_before stop ≡ true) }
    ensures read { (kind : FileKind) → result ≢ Err (Stop.CannotRead kind) }
{
    match check_bytes(
        rt,
        alloc,
        contents.model.as_slice(),
        &opts.opts,
        contents.report.as_slice(),
        contents.proof.as_slice(),
        opts.workers,
        &OpenGate,
    ) {
        Ok(verdict) => Ok(verdict),
        Err(fault) => Err(stop_of_check(fault)),
    }
}

// The verdict on the three files, which are read whole before one of them is looked at.
fn verdict_of<R: Threads + Sync, F: Folder>(
    rt: &R,
    alloc: Global,
    opts: &CheckOpts<'_>,
    files: &mut F,
) -> Result<Verdict, Stop>
    requires { AreFit (settings_seen opts.now) }
    ensures answers { (held : HeldFiles) → Holds (F.seen files.old).files (names_seen opts.now) held → Answers opts.now.opts held result }
    ensures before { IfErr result (λ stop. is_before stop ≡ true) }
    ensures read { ReadFaults (names_seen opts.now) (F.seen files.old) (F.seen files.new) result }
    ensures no_fault { ((kind : FileKind) → result ≢ Err (Stop.CannotRead kind)) → KeepsReadFaults (F.seen files.old) (F.seen files.new) }
    ensures files { KeepsFiles (F.seen files.old) (F.seen files.new) }
    ensures write_faults { KeepsWriteFaults (F.seen files.old) (F.seen files.new) }
{
    let contents = read_files(alloc, opts, files)?;
    judge(rt, alloc, opts, &contents)
}

// Writes the line of a verdict, and gives it back.
fn print<O: Sink>(verdict: Verdict, out: &mut O) -> Result<Verdict, Stop>
    ensures prints { MatchResult result
        (λ given. (given ≡ verdict) × Puts Done (O.seen out.old) (O.seen out.new) (answer_text verdict))
        (λ stop. (stop ≡ Stop.CannotWriteReport) × Puts Failed (O.seen out.old) (O.seen out.new) (answer_text verdict)) }
    ensures counts { CountsOut result (O.seen out.old) (O.seen out.new) }
{
    match put_verdict(&verdict, out) {
        WriteAnswer::Done => Ok(verdict),
        WriteAnswer::Failed => Err(Stop::CannotWriteReport),
    }
}

// Checks the three files, and writes the line of their verdict.
fn check<R: Threads + Sync, F: Folder, O: Sink>(
    rt: &R,
    alloc: Global,
    opts: &CheckOpts<'_>,
    files: &mut F,
    out: &mut O,
) -> Result<Verdict, Stop>
    requires { AreFit (settings_seen opts.now) }
    ensures ends { (held : HeldFiles) → Holds (F.seen files.old).files (names_seen opts.now) held → Ends opts.now.opts held (O.seen out.old) (O.seen out.new) result }
    ensures before { IfErr result (λ stop. stop ≢ Stop.CannotWriteReport → (is_before stop ≡ true) × (O.seen out.new ≡ O.seen out.old)) }
    ensures counts { CountsOut result (O.seen out.old) (O.seen out.new) }
    ensures read { ReadFaults (names_seen opts.now) (F.seen files.old) (F.seen files.new) result }
    ensures no_fault { ((kind : FileKind) → result ≢ Err (Stop.CannotRead kind)) → KeepsReadFaults (F.seen files.old) (F.seen files.new) }
    ensures files { KeepsFiles (F.seen files.old) (F.seen files.new) }
    ensures write_faults { KeepsWriteFaults (F.seen files.old) (F.seen files.new) }
{
    let verdict = verdict_of(rt, alloc, opts, files)?;
    print(verdict, out)
}

// The exit status of a run that ended so.
fn status_of(end: &Result<Verdict, Stop>) -> u8
    ensures { result ≡ end_status end.now }
{
    match end {
        Ok(verdict) => status_of_verdict(verdict),
        Err(stop) => stop.status(),
    }
}

// Writes why a run stopped, if it did, and gives its exit status.
fn finish<E: Sink>(end: &Result<Verdict, Stop>, names: &FileNames<'_>, diag: &mut E) -> u8
    ensures status { result ≡ end_status end.now }
    ensures tells { Tells (E.seen diag.old) (E.seen diag.new) (end_text names.now end.now) }
    ensures silent { IfOk end.now (λ given. E.seen diag.new ≡ E.seen diag.old) }
{
    let _ = put_end(end, names, diag);
    status_of(end)
}

/// Runs the checker on its words, those behind the program's name, and gives the exit status.
///
/// The words are MODEL, REPORT, PROOF and the options `/o`, `/d`, `/a`, `/n`, `/c` and `/workers`. The steps come in
/// this order: words, read of the three files, model, limits of the plan, report, verdict, write of its line to `out`.
/// All memory is taken before the first byte is written. Statuses: 0 where report and proof are accepted, 1 where
/// memory was refused, 3 where the words have no reading, 4 and 5 where the model or a constraint of it is refused, 6
/// where the report has no reading, 7 where a read of the folder failed, 8 where a write of `out` did, 9 where
/// something is above its limit, 10 where report and proof are refused, and then the line on `out` says why. After
/// the other statuses one line that says why goes to `diag`, whose faults change nothing.
///
/// A folder tells what a name holds, the bytes of a file or that there is none, and a sink what was written to it, as
/// those in memory do (`run_check_in_memory` of `runs_in_memory`). Real ones tell nothing, and of them only the clauses speak that have no
/// such premise.
pub fn run_check<R: Threads + Sync, F: Folder, O: Sink, E: Sink>(
    rt: &R,
    alloc: Global,
    words: &[String],
    files: &mut F,
    out: &mut O,
    diag: &mut E,
) -> u8
    // The headline: after status 0 the model file spells a model, every row of the report is valid, and each demanded
    // tuple is served by one of the rows, or the proof lists it and no row serves it. Premises: the words ask for s;
    // the folder tells what the three files held.
    ensures certified { result ≡ 0 → (s : Settings) (held : HeldFiles) → asked_by (texts words.now) ≡ Ok s →
        Holds (F.seen files.old).files (names_in (texts words.now)) held → HasReadings (opts_of s) IsCertified held }

    // The verdict: after status 0 or 10 the files have one, 0 tells that it accepts and 10 that it doesn't, and `out` got
    // exactly its line; after 8 a prefix of it. Premises: as of the headline, and, of what was written, that `out`
    // tells what it held before.
    ensures verdict { HasVerdict result → (s : Settings) (held : HeldFiles) → asked_by (texts words.now) ≡ Ok s →
        Holds (F.seen files.old).files (names_in (texts words.now)) held →
        HasReadings (opts_of s) (λ m lines proof. IsTold (O.seen out.old) (O.seen out.new) result (verdict m lines proof)) held }
    ensures broken { result ≡ 8 → (s : Settings) (held : HeldFiles) → asked_by (texts words.now) ≡ Ok s →
        Holds (F.seen files.old).files (names_in (texts words.now)) held →
        HasReadings (opts_of s) (λ m lines proof. Puts Failed (O.seen out.old) (O.seen out.new) (verdict_text (verdict m lines proof))) held }

    // Which status comes where memory is found. Premises: as of the headline. Files that have their readings, where
    // neither a count of faults of reading one of them rose nor that of `out`: the status of their verdict.
    ensures complete { (s : Settings) (held : HeldFiles) → asked_by (texts words.now) ≡ Ok s →
        Holds (F.seen files.old).files (names_in (texts words.now)) held → AreRead (opts_of s) held →
        ¬ ReadsRose (names_in (texts words.now)) (F.seen files.old) (F.seen files.new) →
        ¬ PutFaultsRose (O.seen out.old) (O.seen out.new) →
        HasReadings (opts_of s) (λ m lines proof. (result ≡ verdict_status (verdict m lines proof)) ⊎ (result ≡ 1)) held }
    // Files that have none, where no count of faults of reading them rose: the status of the first cause.
    ensures refused { (s : Settings) (held : HeldFiles) (stop : Stop) → asked_by (texts words.now) ≡ Ok s →
        Holds (F.seen files.old).files (names_in (texts words.now)) held → FilesAreRefused (opts_of s) held stop →
        ¬ ReadsRose (names_in (texts words.now)) (F.seen files.old) (F.seen files.new) →
        (result ≡ stops.status_of stop) ⊎ (result ≡ 1) }
    // No file.
    ensures missing { (s : Settings) (held : HeldFiles) (kind : FileKind) → asked_by (texts words.now) ≡ Ok s →
        Holds (F.seen files.old).files (names_in (texts words.now)) held → inputs_of held ≡ Err (Stop.CannotRead kind) →
        (result ≡ 7) ⊎ (result ≡ 1) }

    // And each of these statuses has its cause. Premises: as of the headline.
    ensures refusal { IsRefusal result → (s : Settings) (held : HeldFiles) → asked_by (texts words.now) ≡ Ok s →
        Holds (F.seen files.old).files (names_in (texts words.now)) held →
        (stop : Stop) × FilesAreRefused (opts_of s) held stop × (result ≡ stops.status_of stop) }

    // What a run does, as far as the folder tells what the files held, and the sinks what was written. Premise: the
    // words ask for s.
    ensures run { (s : Settings) → asked_by (texts words.now) ≡ Ok s → IsRun (opts_of s) (names_in (texts words.now))
        (F.seen files.old) (F.seen files.new) (O.seen out.old) (O.seen out.new) (E.seen diag.old) (E.seen diag.new) result }

    // Words that have no reading. Premise: the first that has none is told by this index. And what `diag` got is said
    // where it tells what it held before. With words that have a reading the status is another.
    ensures words { (index : ℕ) → IsWordFault (texts words.now) index →
        (result ≡ 3) × Tells (E.seen diag.old) (E.seen diag.new) (word_line index) }
    ensures read_words { (s : Settings) → asked_by (texts words.now) ≡ Ok s → result ≢ 3 }

    // Without such premises: with a status but 0, 8 and 10 `out` gets nothing, and with 0 and 10 `diag` doesn't.
    ensures nothing { result ≢ 8 → ¬ HasVerdict result → O.seen out.new ≡ O.seen out.old }
    ensures silent { HasVerdict result → E.seen diag.new ≡ E.seen diag.old }

    // 7 comes only where a count of faults of reading one of the three names rose, 8 only where the count of faults of
    // `out` did, no other status changes these counts, and no status comes but those named above.
    ensures read { result ≡ 7 → ReadsRose (names_in (texts words.now)) (F.seen files.old) (F.seen files.new) }
    ensures write { result ≡ 8 → PutFaultsRose (O.seen out.old) (O.seen out.new) }
    ensures no_read_fault { result ≢ 7 → KeepsReadFaults (F.seen files.old) (F.seen files.new) }
    ensures no_fault { result ≢ 8 → (O.seen out.new).faults ≡ (O.seen out.old).faults }
    ensures statuses { IsStatus result }

    // No file changes, and no count of faults of writing one.
    ensures files { KeepsFiles (F.seen files.old) (F.seen files.new) }
    ensures write_faults { KeepsWriteFaults (F.seen files.old) (F.seen files.new) }
{
    let opts = match read_check_words(words) {
        Ok(opts) => opts,
        Err(fault) => return refuse_words(fault, diag),
    };
    let end = check(rt, alloc, &opts, files, out);
    finish(&end, &opts.names(), diag)
}

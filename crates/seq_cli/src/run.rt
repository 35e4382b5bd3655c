ghost use Rattle.std.specs.Prelude.{◌≡◌, ◌≢◌, ◌⊎◌, ◌≤◌, ◌<◌, ℕ, List, Option, Some, None, Ok, Err, IsSomeAnd, length};
ghost use Rattle.outside_io.specs.believed.Seen.{KeepsFiles, KeepsReadFaults, KeepsWriteFaults, ReadFaultsRose, PutFaultsRose};
ghost use Rattle.definitions.specs.believed.Diagnostics.{word_line};
ghost use Rattle.command_line.specs.believed.Told.{Tells};
ghost use Rattle.command_line.specs.believed.Words.{texts};
ghost use Rattle.seq_check.specs.believed.Events.{EventsView};
ghost use Rattle.seq_check.specs.believed.EventFile.{events_of};
ghost use Rattle.seq_check.specs.declared.fault.EventsFault.{EventsFault};
ghost use Rattle.seq_cli.specs.Commands.{asked_seen};
ghost use Rattle.seq_cover.specs.believed.Covering.{IsAccepted};
ghost use Rattle.seq_cli.specs.believed.Runs.{HasVerdict, HoldsReport, IsRun, PrintsCovering, ReadFault, ReadsCalmly, Spells, answer_of};
ghost use Rattle.seq_cli.specs.Steps.{Ran};
ghost use Rattle.seq_cli.specs.believed.Stops.{IsStatus, ended_status, most_of, status_of, stop_of};
ghost use Rattle.seq_cli.specs.believed.Words.{Asked, IsWordFault, asked_by};

use crate::answer::make_answer;
use crate::command::{Command, read_words};
use crate::load::load_events;
use crate::stop::{Ended, Input, Stop};
use crate::told::tell;
use command_line::refuse_words;
use outside_io::{Folder, Sink, WriteAnswer};
use std::alloc::Global;

/// Reads the files and writes the output, as the command asks for it.
fn run<F: Folder, O: Sink>(
    alloc: Global,
    command: &Command<'_>,
    files: &mut F,
    out: &mut O,
) -> Result<Ended, Stop>
    ensures ran { Ran (asked_seen command.now) (F.seen files.old) (F.seen files.new) (O.seen out.old) (O.seen out.new) result }
    ensures files { KeepsFiles (F.seen files.old) (F.seen files.new) }
    ensures write_faults { KeepsWriteFaults (F.seen files.old) (F.seen files.new) }
{
    let events = load_events(alloc, command, files)?;
    let answer = make_answer(alloc, command, &events, files)?;
    match out.put(answer.text.as_slice()) {
        WriteAnswer::Done => Ok(answer.ended),
        WriteAnswer::Failed => Err(Stop::CannotWrite),
    }
}

/// Runs `pictseq` on its words, those behind the program's name, and gives the exit status.
///
/// The steps come in this order: words, read of the file of events, its refusals, with `/check` the read of the report,
/// growth or verdict, write to `out`. All memory is taken before the first byte is written to `out`. Statuses: 0 where
/// the text was written whole, 10 where it says that the report is refused, 1 where memory was refused, 3 where the
/// words have no reading, 4 where the file of events is refused, 7 where the folder failed, 8 where `out` did, 9 where
/// something is above its limit. What is told goes to `diag`, whose faults change nothing.
///
/// A folder tells what a name holds, the bytes of a file or that there is none, and a sink what was written to it, as
/// those in memory do (`run_seq_in_memory` of `runs_in_memory`). Real ones tell nothing, and of them only the clauses speak that have no
/// such premise.
pub fn run_seq<F: Folder, O: Sink, E: Sink>(
    alloc: Global,
    words: &[String],
    files: &mut F,
    out: &mut O,
    diag: &mut E,
) -> u8
    // The headline: after status 0, where no report is checked, the file of events spells some, each line that is
    // printed is that of a permitted order or of a sequence that is set aside with a cycle, and each sequence is had by
    // the order of a line, or is set aside by one, and then no permitted order has it. And the checker accepts what is
    // printed. Premises: the words ask for this; the folder tells what the name of the file of events held; and `out`
    // tells what it held before.
    ensures headline { result ≡ 0 → (asked : Asked) (held : Option (List ℕ)) (before : List ℕ) → asked_by (texts words.now) ≡ Ok asked → asked.report ≡ None →
        (F.seen files.old).files asked.file ≡ Some held → (O.seen out.old).written ≡ Some before →
        (e : EventsView) × Spells asked.len held e × IsSomeAnd (O.seen out.new).written (PrintsCovering e before) }

    // A report that is checked: with status 0 it is accepted; status 10 comes only with one, and it isn't accepted.
    // Premises: the words ask for this; the folder tells what both names held.
    ensures accepts { result ≡ 0 → (asked : Asked) (name : List ℕ) (held report : Option (List ℕ)) → asked_by (texts words.now) ≡ Ok asked →
        asked.report ≡ Some name → (F.seen files.old).files asked.file ≡ Some held → (F.seen files.old).files name ≡ Some report → HasVerdict asked.len held report IsAccepted }
    ensures refuses { result ≡ 10 → (asked : Asked) (held : Option (List ℕ)) → asked_by (texts words.now) ≡ Ok asked →
        (F.seen files.old).files asked.file ≡ Some held → IsSomeAnd asked.report (λ name. (report : Option (List ℕ)) →
        (F.seen files.old).files name ≡ Some report → HasVerdict asked.len held report (λ verdict. ¬ IsAccepted verdict)) }

    // What a run does: how it ends on what the folder tells of its files, what `out` and `diag` get then, and its
    // status. And where it blames a file, the count of faults of reading that one rose. Premise: the words ask for this.
    ensures run { (asked : Asked) → asked_by (texts words.now) ≡ Ok asked → IsRun asked
        (F.seen files.old) (F.seen files.new) (O.seen out.old) (O.seen out.new) (E.seen diag.old) (E.seen diag.new) result }

    // Words that have no reading. Premise: the first that has none is told by this index. With words that have a
    // reading the status is another.
    ensures words { (index : ℕ) → IsWordFault (texts words.now) index →
        (result ≡ 3) × Tells (E.seen diag.old) (E.seen diag.new) (word_line index) }
    ensures read_words { (asked : Asked) → asked_by (texts words.now) ≡ Ok asked → result ≢ 3 }

    // Which status comes where memory is found. Premises of all: the words ask for this, and what the folder tells of
    // the files; and of all but `missing` and the like, that no count of faults of reading them rose.
    // Both files are within their bytes, and the first spells events: the count of faults of `out` didn't rise.
    ensures complete { (asked : Asked) (bytes : List ℕ) (e : EventsView) (report : Option (List ℕ)) → asked_by (texts words.now) ≡ Ok asked →
        (F.seen files.old).files asked.file ≡ Some (Some bytes) → length bytes ≤ most_of Input.EventFile → events_of asked.len bytes ≡ Ok e →
        HoldsReport (F.seen files.old).files asked.report report → ReadsCalmly asked (F.seen files.old) (F.seen files.new) →
        ¬ PutFaultsRose (O.seen out.old) (O.seen out.new) → (result ≡ ended_status (answer_of e report).ended) ⊎ (result ≡ 1) }
    // A file of events within its bytes that is refused.
    ensures refused { (asked : Asked) (bytes : List ℕ) (fault : EventsFault) → asked_by (texts words.now) ≡ Ok asked →
        (F.seen files.old).files asked.file ≡ Some (Some bytes) → length bytes ≤ most_of Input.EventFile → events_of asked.len bytes ≡ Err fault →
        ¬ ReadFaultsRose asked.file (F.seen files.old) (F.seen files.new) → (result ≡ status_of (stop_of fault)) ⊎ (result ≡ 1) }
    // One with more bytes than it may have, and none.
    ensures too_long { (asked : Asked) (bytes : List ℕ) → asked_by (texts words.now) ≡ Ok asked →
        (F.seen files.old).files asked.file ≡ Some (Some bytes) → most_of Input.EventFile < length bytes →
        ¬ ReadFaultsRose asked.file (F.seen files.old) (F.seen files.new) → (result ≡ 9) ⊎ (result ≡ 1) }
    ensures missing { (asked : Asked) → asked_by (texts words.now) ≡ Ok asked → (F.seen files.old).files asked.file ≡ Some None → (result ≡ 7) ⊎ (result ≡ 1) }
    // The same of a report that is checked, behind a file that spells events.
    ensures report_too_long { (asked : Asked) (held : Option (List ℕ)) (e : EventsView) (name report : List ℕ) → asked_by (texts words.now) ≡ Ok asked →
        (F.seen files.old).files asked.file ≡ Some held → Spells asked.len held e → asked.report ≡ Some name → (F.seen files.old).files name ≡ Some (Some report) →
        most_of Input.ReportFile < length report → ReadsCalmly asked (F.seen files.old) (F.seen files.new) → (result ≡ 9) ⊎ (result ≡ 1) }
    ensures report_missing { (asked : Asked) (held : Option (List ℕ)) (e : EventsView) (name : List ℕ) → asked_by (texts words.now) ≡ Ok asked →
        (F.seen files.old).files asked.file ≡ Some held → Spells asked.len held e → asked.report ≡ Some name → (F.seen files.old).files name ≡ Some None →
        (result ≡ 7) ⊎ (result ≡ 1) }

    // Without such premises: with a status but 0, 8 and 10 `out` gets nothing, and with 0 and 10 `diag` gets nothing.
    ensures nothing { result ≢ 0 → result ≢ 8 → result ≢ 10 → O.seen out.new ≡ O.seen out.old }
    ensures quiet { (result ≡ 0) ⊎ (result ≡ 10) → E.seen diag.new ≡ E.seen diag.old }

    // 7 comes only where the folder's count of faults of reading one of the files rose, 8 only where that of `out` did,
    // no other status changes these counts, and no status comes but those named above.
    ensures read { result ≡ 7 → (asked : Asked) → asked_by (texts words.now) ≡ Ok asked → ReadFault asked (F.seen files.old) (F.seen files.new) }
    ensures write { result ≡ 8 → PutFaultsRose (O.seen out.old) (O.seen out.new) }
    ensures no_read_fault { result ≢ 7 → KeepsReadFaults (F.seen files.old) (F.seen files.new) }
    ensures no_fault { result ≢ 8 → (O.seen out.new).faults ≡ (O.seen out.old).faults }
    ensures statuses { IsStatus result }

    // No told name changes, none becomes told or untold, and no count of faults of writing changes.
    ensures files { KeepsFiles (F.seen files.old) (F.seen files.new) }
    ensures write_faults { KeepsWriteFaults (F.seen files.old) (F.seen files.new) }
{
    let command = match read_words(words) {
        Ok(command) => command,
        Err(fault) => return refuse_words(fault, diag),
    };
    let end = run(alloc, &command, files, out);
    tell(end, &command, diag)
}

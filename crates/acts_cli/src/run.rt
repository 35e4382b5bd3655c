ghost use Rattle.std.specs.Prelude.{◌≡◌, ◌≢◌, ◌⊎◌, ◌≤◌, ◌<◌, length, ℕ, List, Option, Some, None, Ok, Err, IfSome, IfErr, IsSomeAnd};
ghost use Rattle.outside_io.specs.believed.Seen.{KeepsFiles, KeepsOtherFiles, KeepsReadFaults, KeepsWriteFaults, ReadFaultsRose, WriteFaultsRose};
ghost use Rattle.definitions.specs.believed.Diagnostics.{word_line};
ghost use Rattle.definitions.specs.believed.Limits.{ModelFile, most_bytes};
ghost use Rattle.command_line.specs.believed.Told.{Tells};
ghost use Rattle.command_line.specs.believed.Words.{texts};
ghost use Rattle.acts_front.specs.believed.Codes.{refusal_status};
ghost use Rattle.acts_cli.specs.believed.Runs.{IsRun, IsTooLong, IsTranslated};
ghost use Rattle.acts_cli.specs.Runs.{asked_seen};
ghost use Rattle.acts_front.specs.believed.SameModels.{IsFaithful};
ghost use Rattle.acts_cli.specs.Steps.{Loads, Ran};
ghost use Rattle.acts_cli.specs.believed.Stops.{IsStatus};
ghost use Rattle.acts_front.specs.believed.Translation.{translation};
ghost use Rattle.acts_cli.specs.believed.Words.{Asked, IsWordFault, asked_by};
ghost use Rattle.acts_front.specs.declared.code.ActsCode.{ActsCode};

use crate::stop::{Stop, status_of, tell};
use crate::words::{Command, read_words};
use acts_front::translate;
use command_line::{FileKind, refuse_words};
use outside_io::{Folder, ReadAnswer, Sink, WriteAnswer};
use std::alloc::Global;

/// The translation of the file of this name.
///
/// # Errors
///
/// `CannotRead` where the folder failed, `TooLong` where the file has more bytes than it may, its first refusal,
/// or `OutOfMemory` where memory was refused.
fn load<F: Folder>(alloc: Global, name: &str, fold: bool, files: &mut F) -> Result<Vec<u8>, Stop>
    ensures loads { IfSome ((F.seen files.old).files name.now) (λ held. Loads fold held result) }
    ensures cannot_read { result ≡ Err Stop.CannotRead → ReadFaultsRose name.now (F.seen files.old) (F.seen files.new) }
    ensures no_fault { result ≢ Err Stop.CannotRead → KeepsReadFaults (F.seen files.old) (F.seen files.new) }
    ensures other { IfErr result (λ stop. stop ≢ Stop.CannotWrite) }
    ensures files { KeepsFiles (F.seen files.old) (F.seen files.new) }
    ensures write_faults { KeepsWriteFaults (F.seen files.old) (F.seen files.new) }
{
    let mut bytes = Vec::new(alloc);
    match files.read_file(name, &mut bytes, FileKind::Model.most_bytes()) {
        ReadAnswer::Whole => Ok(translate(alloc, bytes.as_slice(), fold)?),
        ReadAnswer::TooLong => Err(Stop::TooLong),
        ReadAnswer::Failed => Err(Stop::CannotRead),
        ReadAnswer::NoMemory => Err(Stop::OutOfMemory),
    }
}

/// Reads a file and writes its translation.
fn run<F: Folder>(alloc: Global, asked: &Command<'_>, files: &mut F) -> Result<(), Stop>
    ensures { Ran (asked_seen asked.now) (F.seen files.old) (F.seen files.new) result }
{
    let text = load(alloc, asked.input, asked.fold, files)?;
    match files.write_file(asked.output, text.as_slice()) {
        WriteAnswer::Done => Ok(()),
        WriteAnswer::Failed => Err(Stop::CannotWrite),
    }
}

/// Runs `pictacts` on its words, those behind the program's name, and gives the exit status.
///
/// The words are IN, OUT and the option `/c`. The steps come in this order: words, read of IN, its refusals, write
/// of its translation to OUT. Statuses: 0 where OUT was written whole, 1 where memory was refused, 3 where the
/// words have no reading, 4 and 5 where a line or a constraint of IN is refused, 7 where IN could not be read, 8
/// where OUT could not be written whole, 9 where IN has more than 2^22 bytes. After every status but 0 one line
/// that says why goes to `diag`, whose faults change nothing.
///
/// A folder tells what a name holds, the bytes of a file or that there is none, and a sink what was written to it,
/// as those in memory do. Real ones tell nothing, and of them only the clauses speak that have no such premise.
pub fn run_acts<F: Folder, E: Sink>(
    alloc: Global,
    words: &[String],
    files: &mut F,
    diag: &mut E,
) -> u8
    // After status 0 OUT holds the translation of what IN held at entry, which has no more bytes than it may. Premises:
    // the words ask for this; the folder tells what IN held; and, of OUT, what it holds.
    ensures translated { result ≡ 0 → (asked : Asked) (held : Option (List ℕ)) → asked_by (texts words.now) ≡ Ok asked →
        (F.seen files.old).files asked.input ≡ Some held →
        IsSomeAnd held (IsTranslated asked.fold (λ text. IfSome ((F.seen files.new).files asked.output) (λ file. file ≡ Some text))) }

    // What OUT holds after status 0 says what IN said: as a model file, read with the default marks, the same case
    // flag and any order word, it spells a model without notes that has the parameters, values and relations of IN, and
    // whose constraints hold on the same rows; or it is refused, by a limit or since the order is above the number of
    // parameters. Premises: those of the clause before.
    ensures meaning { result ≡ 0 → (asked : Asked) (held : Option (List ℕ)) → asked_by (texts words.now) ≡ Ok asked →
        (F.seen files.old).files asked.input ≡ Some held →
        IsSomeAnd held (λ bytes. IfSome ((F.seen files.new).files asked.output) (λ file. IsSomeAnd file (IsFaithful asked.fold bytes))) }

    // What a run does, as far as the folder tells what IN and OUT hold, and `diag` what it got. Premise: the words ask
    // for this.
    ensures run { (asked : Asked) → asked_by (texts words.now) ≡ Ok asked → IsRun asked (F.seen files.old) (F.seen files.new)
        (E.seen diag.old) (E.seen diag.new) result }

    // Words that have no reading. Premise: the first that has none is told by this index. With words that have a
    // reading the status is another.
    ensures words { (index : ℕ) → IsWordFault (texts words.now) index →
        (result ≡ 3) × Tells (E.seen diag.old) (E.seen diag.new) (word_line index) }
    ensures read_words { (asked : Asked) → asked_by (texts words.now) ≡ Ok asked → result ≢ 3 }

    // Which status comes where memory is found. Premises of all four: the words ask for this; the folder tells what IN
    // held. Of the first three: the count of faults of reading IN didn't rise.
    // A file within its bytes that is translated, where the count of faults of writing OUT didn't rise.
    ensures complete { (asked : Asked) (bytes text : List ℕ) → asked_by (texts words.now) ≡ Ok asked →
        (F.seen files.old).files asked.input ≡ Some (Some bytes) → length bytes ≤ most_bytes ModelFile → translation asked.fold bytes ≡ Ok text →
        ¬ ReadFaultsRose asked.input (F.seen files.old) (F.seen files.new) →
        ¬ WriteFaultsRose asked.output (F.seen files.old) (F.seen files.new) → (result ≡ 0) ⊎ (result ≡ 1) }
    // A file within its bytes that is refused.
    ensures refused { (asked : Asked) (bytes : List ℕ) (line : ℕ) (code : ActsCode) → asked_by (texts words.now) ≡ Ok asked →
        (F.seen files.old).files asked.input ≡ Some (Some bytes) → length bytes ≤ most_bytes ModelFile → translation asked.fold bytes ≡ Err (line, code) →
        ¬ ReadFaultsRose asked.input (F.seen files.old) (F.seen files.new) → (result ≡ refusal_status code) ⊎ (result ≡ 1) }
    // A file with more bytes than it may have.
    ensures too_long { (asked : Asked) (bytes : List ℕ) → asked_by (texts words.now) ≡ Ok asked →
        (F.seen files.old).files asked.input ≡ Some (Some bytes) → IsTooLong bytes →
        ¬ ReadFaultsRose asked.input (F.seen files.old) (F.seen files.new) → (result ≡ 9) ⊎ (result ≡ 1) }
    // No file.
    ensures missing { (asked : Asked) → asked_by (texts words.now) ≡ Ok asked →
        (F.seen files.old).files asked.input ≡ Some None → (result ≡ 7) ⊎ (result ≡ 1) }

    // Without such premises: after status 0 nothing is told, 7 comes only where the folder's count of faults of reading
    // IN rose, 8 only where that of writing OUT did, and no status comes but those named above.
    ensures silent { result ≡ 0 → E.seen diag.new ≡ E.seen diag.old }
    ensures read { result ≡ 7 → (asked : Asked) → asked_by (texts words.now) ≡ Ok asked →
        ReadFaultsRose asked.input (F.seen files.old) (F.seen files.new) }
    ensures write { result ≡ 8 → (asked : Asked) → asked_by (texts words.now) ≡ Ok asked →
        WriteFaultsRose asked.output (F.seen files.old) (F.seen files.new) }
    ensures statuses { IsStatus result }

    // No other name changes, and OUT changes only after the statuses 0 and 8: none becomes told or untold, too.
    ensures others { (asked : Asked) → asked_by (texts words.now) ≡ Ok asked → KeepsOtherFiles asked.output (F.seen files.old) (F.seen files.new) }
    ensures nothing { result ≢ 0 → result ≢ 8 → KeepsFiles (F.seen files.old) (F.seen files.new) }
    ensures no_read_fault { result ≢ 7 → KeepsReadFaults (F.seen files.old) (F.seen files.new) }
    ensures no_write_fault { result ≢ 8 → KeepsWriteFaults (F.seen files.old) (F.seen files.new) }
{
    let asked = match read_words(words) {
        Ok(asked) => asked,
        Err(fault) => return refuse_words(fault, diag),
    };
    let end = run(alloc, &asked, files);
    let _ = tell(&end, asked.input, asked.output, diag);
    status_of(&end)
}

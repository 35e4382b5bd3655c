ghost use Rattle.std.specs.Prelude.{◌≡◌, ℕ, List, Option, Some, IfSome, IsSomeAnd, not, option_map};
ghost use Rattle.outside_io.specs.believed.Seen.{KeepsFiles};
ghost use Rattle.acts_front.specs.believed.SameModels.{IsFaithful};
ghost use Rattle.jeldroft_files.specs.Runs.{Ends};
ghost use Rattle.jeldroft_files.specs.believed.Runs.{IsWritten, Leaves, RunsAs, moment};
ghost use Rattle.jeldroft_import.specs.believed.Imports as imports;
ghost use Rattle.jeldroft_import.specs.believed.Imports.{Due, called_for};
ghost use Rattle.jeldroft_import.specs.Steps.{Gives, answer_seen, end_status};

use crate::cause::ImportCause;
use crate::read::{read, translated};
use crate::told::tell;
use jeldroft_args::Import;
use jeldroft_files::write_text;
use outside_io::{Folder, Sink};
use std::alloc::Global;

/// The name of the model file; `None` where it goes to standard output.
fn output_name(args: &Import) -> Option<&str>
    ensures { option_map (λ name. name.now) result ≡ args.now.output }
{
    match &args.output {
        Some(name) => Some(name.as_str()),
        None => None,
    }
}

/// Reads the file into `bytes`, and translates it.
///
/// # Errors
///
/// As from `read` and `translated`.
fn answer<F: Folder>(
    alloc: Global,
    args: &Import,
    bytes: &mut Vec<u8>,
    files: &mut F,
) -> Result<Vec<u8>, ImportCause>
    ensures gives { IfSome ((F.seen files.old).files args.now.file) (λ held.
        Gives (called_for (not args.now.case_sensitive) held) result) }
    ensures files { KeepsFiles (F.seen files.old) (F.seen files.new) }
{
    read(args.file.as_str(), bytes, files)?;
    translated(alloc, bytes.as_slice(), !args.case_sensitive)
}

/// Writes the model file, where there is one.
///
/// # Errors
///
/// The cause of the answer, or `CannotWrite` where the folder or standard output failed.
fn end_with<F: Folder, O: Sink>(
    answer: Result<Vec<u8>, ImportCause>,
    args: &Import,
    files: &mut F,
    out: &mut O,
) -> Result<(), ImportCause>
    ensures { Ends (answer_seen answer) args.now.output
        (moment (F.seen files.old) (O.seen out.old)) (moment (F.seen files.new) (O.seen out.new)) (end_status result) }
{
    let text = answer?;
    match write_text(text.as_slice(), output_name(args), files, out) {
        Ok(()) => Ok(()),
        Err(_) => Err(ImportCause::CannotWrite),
    }
}

/// The exit status of a run that ended so.
fn status_of(end: &Result<(), ImportCause>) -> u8
    ensures { result ≡ end_status end.now }
{
    match end {
        Ok(()) => 0,
        Err(cause) => cause.status(),
    }
}

/// Tells why there is no model file, if there is none, and gives the exit status. `bytes` are those of the file.
fn finish<E: Sink>(end: &Result<(), ImportCause>, args: &Import, bytes: &[u8], diag: &mut E) -> u8
    ensures { result ≡ end_status end.now }
{
    if let Err(cause) = end {
        tell(*cause, args, bytes, diag);
    }
    status_of(end)
}

/// Runs `import`, and gives the exit status: 0 where the model file was written, 2 where a line of the file is refused
/// or it has more than 2^22 bytes, 3 where memory was refused, the file could not be read, or the model file could not
/// be written.
///
/// All memory is taken before the first byte is written. Why there is no model file is told on `diag`, with the line
/// that is refused; its faults change nothing.
pub fn run_import<F: Folder, O: Sink, E: Sink>(
    alloc: Global,
    args: &Import,
    files: &mut F,
    out: &mut O,
    diag: &mut E,
) -> u8
    // What a run does: it writes the translation of what the file held, or ends by the file's first refusal. Premise: the
    // folder tells what the file held.
    ensures runs { (held : Option (List ℕ)) → (F.seen files.old).files args.now.file ≡ Some held →
        RunsAs imports.status_of (Due (not args.now.case_sensitive) held) args.now.output
        (moment (F.seen files.old) (O.seen out.old)) (moment (F.seen files.new) (O.seen out.new)) result }

    // What was written says what the file said: as a model file, read with the default marks and the same case flag, it
    // spells a model without notes that has the file's parameters, values and relations, and whose constraints hold on
    // the same rows; or it is refused, by a limit or since the order is above the number of parameters. The premise is
    // the same.
    ensures meaning { result ≡ 0 → (held : Option (List ℕ)) → (F.seen files.old).files args.now.file ≡ Some held →
        IsSomeAnd held (λ bytes. (text : List ℕ) × IsFaithful (not args.now.case_sensitive) bytes text × IsWritten args.now.output text
        (moment (F.seen files.old) (O.seen out.old)) (moment (F.seen files.new) (O.seen out.new))) }

    // Without it: which names and which output it leaves as they were.
    ensures leaves { Leaves args.now.output
        (moment (F.seen files.old) (O.seen out.old)) (moment (F.seen files.new) (O.seen out.new)) result }
{
    let mut bytes = Vec::new(alloc);
    let answer = answer(alloc, args, &mut bytes, files);
    let end = end_with(answer, args, files, out);
    finish(&end, args, bytes.as_slice(), diag)
}

ghost use Rattle.std.specs.Prelude.{◌≡◌, Some, option_map, OnOk, OnErr, IfSome, IfErr};
ghost use Rattle.outside_io.specs.believed.Seen.{KeepsOtherFiles};
ghost use Rattle.jeldroft_files.specs.believed.Failures.{status_of};
ghost use Rattle.jeldroft_files.specs.Runs.{Ends, Writes, answer_seen, end_status};
ghost use Rattle.jeldroft_files.specs.believed.Runs.{IsPrinted, KeepsFile, moment};

use crate::failure::Failure;
use command_line::Stop;
use outside_io::{Folder, Sink, WriteAnswer};

// Writes a text to the file of this name.
fn write_file<'n, F: Folder>(text: &[u8], name: &'n str, files: &mut F) -> Result<(), Failure<'n>>
    ensures written { OnOk result (IfSome ((F.seen files.new).files name.now) (λ held. held ≡ Some text.now)) }
    ensures kept { OnErr result (KeepsFile name.now (F.seen files.old) (F.seen files.new)) }
    ensures others { KeepsOtherFiles name.now (F.seen files.old) (F.seen files.new) }
    ensures failed { IfErr result (λ failure. status_of failure.cause ≡ 3) }
{
    match files.replace_file(name, text) {
        WriteAnswer::Done => Ok(()),
        WriteAnswer::Failed => Err(Failure::at(name, Stop::CannotWriteReport)),
    }
}

// Writes a text to standard output.
fn print<'n, O: Sink>(text: &[u8], out: &mut O) -> Result<(), Failure<'n>>
    ensures printed { OnOk result (IsPrinted text.now (O.seen out.old) (O.seen out.new)) }
    ensures failed { IfErr result (λ failure. status_of failure.cause ≡ 3) }
{
    match out.put(text) {
        WriteAnswer::Done => Ok(()),
        WriteAnswer::Failed => {
            if out.is_gone() {
                Ok(())
            } else {
                Err(Failure::at("", Stop::CannotWriteReport))
            }
        }
    }
}

/// Writes a text to the file of this name, whole or not at all, or, where there is no name, to standard output. A reader
/// of standard output that has gone away is no failure. Takes no memory.
///
/// # Errors
///
/// `CannotWriteReport`, of the output file, where the folder or standard output failed.
pub fn write_text<'n, F: Folder, O: Sink>(
    text: &[u8],
    output: Option<&'n str>,
    files: &mut F,
    out: &mut O,
) -> Result<(), Failure<'n>>
    ensures writes { Writes text.now (option_map (λ name. name.now) output.entry)
        (moment (F.seen files.old) (O.seen out.old)) (moment (F.seen files.new) (O.seen out.new)) (end_status result) }
    ensures failed { IfErr result (λ failure. status_of failure.cause ≡ 3) }
{
    match output {
        Some(name) => write_file(text, name, files),
        None => print(text, out),
    }
}

/// Ends a command that writes one text: the text is written to the file of this name, or, where there is no name, to
/// standard output; where there is none, its failure is passed on.
///
/// # Errors
///
/// The failure of the answer, or that of `write_text`.
pub fn end_with<'n, F: Folder, O: Sink>(
    answer: Result<Vec<u8>, Failure<'n>>,
    output: Option<&'n str>,
    files: &mut F,
    out: &mut O,
) -> Result<(), Failure<'n>>
    ensures { Ends (answer_seen answer.entry) (option_map (λ name. name.now) output.entry)
        (moment (F.seen files.old) (O.seen out.old)) (moment (F.seen files.new) (O.seen out.new)) (end_status result) }
{
    match answer {
        Ok(text) => write_text(text.as_slice(), output, files, out),
        Err(failure) => Err(failure),
    }
}

/// The exit status of a command that ended so: 0, or that of its failure.
pub fn status_of_end(end: &Result<(), Failure<'_>>) -> u8
    ensures { result ≡ end_status end.now }
{
    match end {
        Ok(()) => 0,
        Err(failure) => failure.cause.status(),
    }
}

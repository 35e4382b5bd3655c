ghost use Rattle.std.specs.Prelude.{◌≡◌, option_map, IfOk, IsOkAnd};
ghost use Rattle.jeldroft_files.specs.Runs.{end_status};
ghost use Rattle.jeldroft_files.specs.believed.Runs.{moment};
ghost use Rattle.jeldroft_generate.specs.believed.Asked.{proof_name};
ghost use Rattle.jeldroft_generate.specs.Runs.{Finishes, WritesBoth, WritesIf};

use crate::asked::output_name;
use crate::made::Made;
use crate::telling::Summary;
use jeldroft_args::{Generate, ProofOutput};
use jeldroft_files::{Failure, write_text};
use outside_io::{Folder, Sink};

// Writes the proof to its file, where one is asked for.
fn write_proof<'n, F: Folder, O: Sink>(
    proof: &'n Option<ProofOutput>,
    text: &[u8],
    files: &mut F,
    out: &mut O,
) -> Result<(), Failure<'n>>
    ensures { WritesIf (option_map (λ asked. asked.name) proof.now) text.now
        (moment (F.seen files.old) (O.seen out.old)) (moment (F.seen files.new) (O.seen out.new)) (end_status result) }
{
    match proof {
        Some(asked) => write_text(text, Some(asked.name.as_str()), files, out),
        None => Ok(()),
    }
}

// Writes the proof to its file, where one is asked for, and then the table. Takes no memory.
fn write_made<'n, F: Folder, O: Sink>(
    args: &'n Generate,
    made: &Made,
    files: &mut F,
    out: &mut O,
) -> Result<(), Failure<'n>>
    ensures { WritesBoth (proof_name args.now) args.now.output made.now.proof.items made.now.table.items
        (moment (F.seen files.old) (O.seen out.old)) (moment (F.seen files.new) (O.seen out.new)) (end_status result) }
{
    match write_proof(&args.proof, made.proof.as_slice(), files, out) {
        Ok(()) => write_text(made.table.as_slice(), output_name(args), files, out),
        Err(failure) => Err(failure),
    }
}

/// Ends a run: what was made is written, and what is told of it handed on; where nothing was made, its failure is.
///
/// # Errors
///
/// The failure of the answer, or `CannotWriteReport` of the file that the folder failed to write, or of standard output.
pub(crate) fn finish<'n, F: Folder, O: Sink>(
    args: &'n Generate,
    answer: Result<Made, Failure<'n>>,
    files: &mut F,
    out: &mut O,
) -> Result<Summary, Failure<'n>>
    ensures finishes { Finishes answer.entry (proof_name args.now) args.now.output
        (moment (F.seen files.old) (O.seen out.old)) (moment (F.seen files.new) (O.seen out.new)) (end_status result) }
    ensures same { IfOk result (λ summary. IsOkAnd answer.entry (λ made. made.summary ≡ summary)) }
{
    match answer {
        Ok(made) => match write_made(args, &made, files, out) {
            Ok(()) => Ok(made.summary),
            Err(failure) => Err(failure),
        },
        Err(failure) => Err(failure),
    }
}

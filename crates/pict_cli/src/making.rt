ghost use Rattle.std.specs.Prelude.{◌≡◌, ◌≤◌, length, Some, IfOk, IfErr, IfSome};
ghost use Rattle.outside_io.specs.believed.Seen.{KeepsOtherFiles, KeepsReadFaults, KeepsWriteFaults};
ghost use Rattle.cov_model.specs.believed.Sound.{IsSound};
ghost use Rattle.made_models.specs.believed.MadeModel.{made_text};
ghost use Rattle.definitions.specs.believed.Limits.{ModelFile, most_bytes};
ghost use Rattle.model_parse.specs.RawModels.{AreOpts};
ghost use Rattle.command_line.specs.believed.Loading.{IsLoaded, StopsReading};
ghost use Rattle.pict_cli.specs.believed.Ends.{Stopped, end_of};
ghost use Rattle.pict_cli.specs.Steps.{StopsMaking};

use command_line::{FileKind, Stop};
use cov_model::TestModel;
use made_models::made_model;
use model_lex::{ModelOpts, NoteList};
use outside_io::{Folder, WriteAnswer};
use std::alloc::Global;
use type_check::read_model;
use value_text::Text;

/// Makes the model of a number, and writes it to the file of this name.
///
/// # Errors
///
/// `OutOfMemory` where memory was refused, and then nothing was written; `CannotWrite` where the folder failed.
pub(crate) fn write_made<F: Folder>(
    alloc: Global,
    number: u64,
    name: &str,
    files: &mut F,
) -> Result<Text, Stop>
    ensures text { IfOk result (λ text. text ≡ made_text number) }
    ensures written { IfOk result (λ _. IfSome ((F.seen files.new).files name.now) (λ held. held ≡ Some (made_text number))) }
    ensures no_fault { IfOk result (λ _. KeepsWriteFaults (F.seen files.old) (F.seen files.new)) }
    ensures stops { IfErr result (StopsMaking name.now (made_text number) (F.seen files.old) (F.seen files.new)) }
    ensures others { KeepsOtherFiles name.now (F.seen files.old) (F.seen files.new) }
    ensures reads { KeepsReadFaults (F.seen files.old) (F.seen files.new) }
{
    let text = made_model(alloc, number)?;
    match files.write_file(name, text.as_str().as_bytes()) {
        WriteAnswer::Done => Ok(text),
        WriteAnswer::Failed => Err(Stop::CannotWrite(FileKind::Model)),
    }
}

/// The model that the bytes of a made model spell, with its notes.
///
/// # Errors
///
/// Its first refusal, or `OutOfMemory` where memory was refused.
pub(crate) fn read_made(
    alloc: Global,
    bytes: &[u8],
    opts: &ModelOpts,
) -> Result<(TestModel, NoteList), Stop>
    requires opts { AreOpts opts.now }
    requires within { length bytes.now ≤ most_bytes ModelFile }
    ensures model { IfOk result (λ read. IsSound read.0 × IsLoaded opts.now (Some bytes.now) read.0 read.1) }
    ensures stops { IfErr result (StopsReading opts.now (Some bytes.now)) }
    ensures early { IfErr result (λ stop. end_of (Err stop) ≡ Stopped) }
{
    let (model, notes) = read_model(alloc, bytes, opts)?;
    model.assert_invariant();
    Ok((model, notes))
}

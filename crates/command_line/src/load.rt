ghost use Rattle.std.specs.Prelude.{◌≡◌, ◌≢◌, ◌⊎◌, None, Err, IfOk, IfErr, IfSome, IsSomeAnd, ◌≤◌, length};
ghost use Rattle.outside_io.specs.believed.Seen.{KeepsFiles, KeepsReadFaults, KeepsWriteFaults, ReadFaultsRose};
ghost use Rattle.cov_model.specs.believed.Sound.{IsSound};
ghost use Rattle.definitions.specs.believed.Limits.{ModelFile, most_bytes};
ghost use Rattle.model_parse.specs.RawModels.{AreOpts};
ghost use Rattle.type_check.specs.believed.ModelOf.{IsModelOf};
ghost use Rattle.command_line.specs.believed.Loading.{IsLoaded, StopsReading};
ghost use Rattle.command_line.specs.Loading.{IsOfReading, IsUnread};
ghost use Rattle.command_line.specs.believed.Stops.{measured};

use crate::files::FileKind;
use crate::stop::Stop;
use cov_model::TestModel;
use model_lex::{ModelOpts, NoteList};
use outside_io::{Folder, ReadAnswer};
use std::alloc::Global;
use type_check::read_model;

/// The bytes of the file of this kind and name.
///
/// # Errors
///
/// `CannotRead` where the folder failed, `TooLong` where the file has more bytes than one of its kind may
/// have, `OutOfMemory` where memory was refused.
pub fn read_whole<F: Folder>(
    alloc: Global,
    kind: FileKind,
    name: &str,
    files: &mut F,
) -> Result<Vec<u8>, Stop>
    ensures whole { IfOk result (λ bytes. IfSome ((F.seen files.old).files name.now) (λ held. held ≡ Some bytes.items)) }
    ensures within { IfOk result (λ bytes. length bytes.items ≤ most_bytes (measured kind)) }
    ensures stops { IfErr result (λ stop. IfSome ((F.seen files.old).files name.now) (λ held. IsUnread kind held stop)) }
    ensures cannot_read { result ≡ Err (Stop.CannotRead kind) → ReadFaultsRose name.now (F.seen files.old) (F.seen files.new) }
    ensures no_fault { result ≢ Err (Stop.CannotRead kind) → KeepsReadFaults (F.seen files.old) (F.seen files.new) }
    ensures other { IfErr result (IsOfReading kind) }
    ensures files { KeepsFiles (F.seen files.old) (F.seen files.new) }
    ensures write_faults { KeepsWriteFaults (F.seen files.old) (F.seen files.new) }
{
    let mut bytes = Vec::new(alloc);
    match files.read_file(name, &mut bytes, kind.most_bytes()) {
        ReadAnswer::Whole => Ok(bytes),
        ReadAnswer::TooLong => Err(Stop::TooLong(kind)),
        ReadAnswer::Failed => Err(Stop::CannotRead(kind)),
        ReadAnswer::NoMemory => Err(Stop::OutOfMemory),
    }
}

/// The model of the model file of this name, with its notes.
///
/// # Errors
///
/// `CannotRead` where the folder failed, `TooLong` where the file has more bytes than a model file may
/// have, its first refusal, or `OutOfMemory` where memory was refused.
pub fn load_model<F: Folder>(
    alloc: Global,
    name: &str,
    opts: &ModelOpts,
    files: &mut F,
) -> Result<(TestModel, NoteList), Stop>
    requires { AreOpts opts.now }
    ensures model { IfOk result (λ read. IsSound read.0 × IfSome ((F.seen files.old).files name.now) (λ held. IsLoaded opts.now held read.0 read.1)) }
    ensures stops { IfErr result (λ stop. IfSome ((F.seen files.old).files name.now) (λ held. StopsReading opts.now held stop)) }
    ensures cannot_read { result ≡ Err (Stop.CannotRead FileKind.Model) → ReadFaultsRose name.now (F.seen files.old) (F.seen files.new) }
    ensures no_fault { result ≢ Err (Stop.CannotRead FileKind.Model) → KeepsReadFaults (F.seen files.old) (F.seen files.new) }
    ensures other { IfErr result (IsOfReading FileKind.Model) }
    ensures files { KeepsFiles (F.seen files.old) (F.seen files.new) }
    ensures write_faults { KeepsWriteFaults (F.seen files.old) (F.seen files.new) }
{
    let bytes = read_whole(alloc, FileKind::Model, name, files)?;
    let (model, notes) = read_model(alloc, bytes.as_slice(), opts)?;
    model.assert_invariant();
    Ok((model, notes))
}

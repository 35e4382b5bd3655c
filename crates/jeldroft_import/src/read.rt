ghost use Rattle.std.specs.Prelude.{◌≤◌, ◌^◌, IfOk, IfSome, length};
ghost use Rattle.outside_io.specs.believed.Seen.{KeepsFiles};
ghost use Rattle.acts_front.specs.believed.Translation.{translation};
ghost use Rattle.jeldroft_import.specs.believed.Imports.{bytes_held, text_of};
ghost use Rattle.jeldroft_import.specs.Steps.{Gives, Reads};

use crate::cause::ImportCause;
use acts_front::{ActsFault, translate};
use command_line::FileKind;
use outside_io::{Folder, ReadAnswer};
use std::alloc::Global;

/// Reads the file of this name into `bytes`, which gets no more than a model file may have.
///
/// # Errors
///
/// `CannotRead` where the folder failed, `TooLong` where the file has more bytes, `OutOfMemory` where memory was refused.
pub(crate) fn read<F: Folder>(
    name: &str,
    bytes: &mut Vec<u8>,
    files: &mut F,
) -> Result<(), ImportCause>
    ensures reads { IfSome ((F.seen files.old).files name.now) (λ held. Reads (bytes_held held) bytes.new.items result) }
    ensures within { IfOk result (λ _. length bytes.new.items ≤ 2 ^ 28) }
    ensures files { KeepsFiles (F.seen files.old) (F.seen files.new) }
{
    match files.read_file(name, bytes, FileKind::Model.most_bytes()) {
        ReadAnswer::Whole => Ok(()),
        ReadAnswer::TooLong => Err(ImportCause::TooLong),
        ReadAnswer::Failed => Err(ImportCause::CannotRead),
        ReadAnswer::NoMemory => Err(ImportCause::OutOfMemory),
    }
}

/// The model file that bytes in the form of ACTS become.
///
/// # Errors
///
/// `BadLine` with the first line that is refused, `OutOfMemory` where memory was refused.
pub(crate) fn translated(alloc: Global, bytes: &[u8], fold: bool) -> Result<Vec<u8>, ImportCause>
    requires { length bytes.now ≤ 2 ^ 28 }
    ensures { Gives (text_of (translation fold bytes.now)) result }
{
    match translate(alloc, bytes, fold) {
        Ok(text) => Ok(text),
        Err(ActsFault::Bad(line, code)) => Err(ImportCause::BadLine(line, code)),
        Err(ActsFault::NoMemory) => Err(ImportCause::OutOfMemory),
    }
}

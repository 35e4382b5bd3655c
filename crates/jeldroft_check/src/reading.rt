//! The files of the command.
ghost use Rattle.std.specs.Prelude.{◌≡◌, ◌≤◌, ◌^◌, length, Some, List, Option, ℕ, IfOk};
ghost use Rattle.outside_io.specs.believed.Seen.{KeepsFiles};
ghost use Rattle.command_line.specs.believed.Stops.{measured};
ghost use Rattle.definitions.specs.believed.Limits.{most_bytes};
ghost use Rattle.check_cli.specs.believed.Runs.{bytes_of};
ghost use Rattle.command_line.specs.declared.files.FileKind.TheVariants as kinds;
ghost use Rattle.jeldroft_files.specs.believed.Tables.{is_comma};
ghost use Rattle.jeldroft_check.specs.believed.Runs.{in_tabs, no_omissions, or_cause, proof_told};
ghost use Rattle.jeldroft_check.specs.Steps.{ReadsAs, ReadsTableAs};

use command_line::{FileKind, read_whole};
use jeldroft_args::Check;
use jeldroft_files::{Failure, TableText, read_table_text};
use outside_io::Folder;
use std::alloc::Global;
use value_text::NoMemory;

/// The bytes of the file of this kind and name.
///
/// # Errors
///
/// `CannotRead` where the folder failed, `TooLong` where the file has more bytes than one of its kind may have, or
/// `OutOfMemory`.
pub(crate) fn read_file<'n, F: Folder>(
    alloc: Global,
    kind: FileKind,
    name: &'n str,
    files: &mut F,
) -> Result<Vec<u8>, Failure<'n>>
    ensures reads { (held : Option (List ℕ)) → (F.seen files.old).files name.now ≡ Some held → ReadsAs (or_cause (bytes_of kind held)) result }
    ensures within { IfOk result (λ bytes. length bytes.items ≤ most_bytes (measured kind)) }
    ensures files { KeepsFiles (F.seen files.old) (F.seen files.new) }
{
    match read_whole(alloc, kind, name, files) {
        Ok(bytes) => Ok(bytes),
        Err(stop) => Err(Failure::at(name, stop)),
    }
}

/// The bytes of the table.
///
/// # Errors
///
/// As `read_table_text`.
pub(crate) fn read_rows<'n, F: Folder>(
    alloc: Global,
    args: &'n Check,
    files: &mut F,
) -> Result<TableText, Failure<'n>>
    ensures reads { (held : Option (List ℕ)) → (F.seen files.old).files args.now.table ≡ Some held →
        ReadsTableAs (in_tabs (is_comma args.now.delimiter args.now.table) (bytes_of kinds.Rows held)) result }
    ensures within { IfOk result (λ text. length text.tabs.items ≤ 2 ^ 28) }
    ensures files { KeepsFiles (F.seen files.old) (F.seen files.new) }
{
    read_table_text(alloc, args.table.as_str(), args.delimiter, files)
}

// The bytes of a proof without omissions.
fn no_omissions(alloc: Global) -> Result<Vec<u8>, NoMemory>
    ensures { IfOk result (λ bytes. bytes.items ≡ no_omissions) }
{
    Ok(Vec::from_slice(alloc, b"pict-proof 1\n")?)
}

/// The bytes of the proof; of one without omissions where the words name none.
///
/// # Errors
///
/// As `read_file`.
pub(crate) fn read_proof<'n, F: Folder>(
    alloc: Global,
    args: &'n Check,
    files: &mut F,
) -> Result<Vec<u8>, Failure<'n>>
    ensures reads { (held : Option (List ℕ)) → proof_told (F.seen files.old).files args.now.proof ≡ Some held →
        ReadsAs (or_cause (bytes_of kinds.Proof held)) result }
    ensures within { IfOk result (λ bytes. length bytes.items ≤ 2 ^ 28) }
    ensures files { KeepsFiles (F.seen files.old) (F.seen files.new) }
{
    match &args.proof {
        Some(name) => read_file(alloc, FileKind::Proof, name.as_str(), files),
        None => Ok(no_omissions(alloc)?),
    }
}

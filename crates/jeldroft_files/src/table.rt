ghost use Rattle.std.specs.Prelude.{◌≡◌, ◌≤◌, ◌^◌, length, IfOk, IfErr, IfSome};
ghost use Rattle.outside_io.specs.believed.Seen.{KeepsFiles};
ghost use Rattle.jeldroft_files.specs.Tables as tables;
ghost use Rattle.jeldroft_files.specs.believed.Tables as believed_tables;

use crate::failure::{Cause, Failure};
use crate::tabbed::tabbed;
use comma_rows::CommaError;
use command_line::{FileKind, Stop, read_whole};
use jeldroft_args::Delimiter;
use outside_io::Folder;
use std::alloc::Global;

/// Whether commas part the cells of the table in the file of this name: where the words say so, and, where they say
/// nothing, where its name ends with `.csv`. Else tabs part them.
pub fn is_comma(delimiter: Option<Delimiter>, name: &str) -> bool
    ensures { result ≡ believed_tables.is_comma delimiter name.now }
{
    match delimiter {
        Some(Delimiter::Tab) => false,
        Some(Delimiter::Comma) => true,
        None => name.as_bytes().ends_with(b".csv"),
    }
}

// Why a table is no text of comma-separated values, as the failure of the file of this name.
fn failure_of<'n>(name: &'n str, error: CommaError) -> Failure<'n>
    ensures { result.cause ≡ tables.cause_of error }
{
    match error {
        CommaError::Fault(fault) => Failure {
            file: name,
            cause: Cause::Comma(fault),
            refused: None,
            column: None,
        },
        CommaError::NoMemory => Failure::at(name, Stop::OutOfMemory),
    }
}

/// A table as it is read, and as its file has it.
#[derive(Drop)]
pub struct TableText {
    /// The bytes, with tabs between the cells.
    pub tabs: Vec<u8>,
    /// The bytes of the file, where commas part its cells; else none.
    pub commas: Vec<u8>,
}

impl TableText {
    /// No bytes. Takes no memory.
    pub fn none(alloc: Global) -> TableText {
        TableText {
            tabs: Vec::new(alloc),
            commas: Vec::new(alloc),
        }
    }
}

/// The bytes of a table whose cells tabs part: those of the file of this name, or, where commas part its cells, those of
/// the table that says the same, and the file's beside them.
///
/// # Errors
///
/// A failure of the file: `CannotRead` where the folder failed, `TooLong` where the file has more bytes than a file of
/// rows may have, `Comma` where its cells are to be parted by commas and RFC 4180 doesn't allow what it holds, or
/// `OutOfMemory`.
pub fn read_table_text<'n, F: Folder>(
    alloc: Global,
    name: &'n str,
    delimiter: Option<Delimiter>,
    files: &mut F,
) -> Result<TableText, Failure<'n>>
    ensures table { IfOk result (λ text. IfSome ((F.seen files.old).files name.now)
        (λ held. tables.IsTableOf (believed_tables.is_comma delimiter name.now) held text.tabs.items)) }
    ensures within { IfOk result (λ text. length text.tabs.items ≤ 2 ^ 28) }
    ensures stops { IfErr result (λ failure. IfSome ((F.seen files.old).files name.now)
        (λ held. tables.StopsTable (believed_tables.is_comma delimiter name.now) held failure.cause)) }
    ensures files { KeepsFiles (F.seen files.old) (F.seen files.new) }
{
    let bytes = match read_whole(alloc, FileKind::Rows, name, files) {
        Ok(bytes) => bytes,
        Err(stop) => return Err(Failure::at(name, stop)),
    };
    if !is_comma(delimiter, name) {
        return Ok(TableText {
            tabs: bytes,
            commas: Vec::new(alloc),
        });
    }
    match tabbed(alloc, bytes.as_slice()) {
        Ok(table) => Ok(TableText {
            tabs: table,
            commas: bytes,
        }),
        Err(error) => Err(failure_of(name, error)),
    }
}

/// The same without the file's bytes.
///
/// # Errors
///
/// As `read_table_text`.
pub fn read_table<'n, F: Folder>(
    alloc: Global,
    name: &'n str,
    delimiter: Option<Delimiter>,
    files: &mut F,
) -> Result<Vec<u8>, Failure<'n>>
    ensures table { IfOk result (λ bytes. IfSome ((F.seen files.old).files name.now)
        (λ held. tables.IsTableOf (believed_tables.is_comma delimiter name.now) held bytes.items)) }
    ensures within { IfOk result (λ bytes. length bytes.items ≤ 2 ^ 28) }
    ensures stops { IfErr result (λ failure. IfSome ((F.seen files.old).files name.now)
        (λ held. tables.StopsTable (believed_tables.is_comma delimiter name.now) held failure.cause)) }
    ensures files { KeepsFiles (F.seen files.old) (F.seen files.new) }
{
    match read_table_text(alloc, name, delimiter, files) {
        Ok(text) => Ok(text.tabs),
        Err(failure) => Err(failure),
    }
}

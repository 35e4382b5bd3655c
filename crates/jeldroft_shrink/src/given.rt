ghost use Rattle.std.specs.Prelude.{◌≡◌, ◌≤◌, ◌^◌, true, length, All, IfOk, IfSome, Ok};
ghost use Rattle.cov_model.specs.Fits.{FitsModel};
ghost use Rattle.cov_model.specs.believed.Valid.{is_valid};
ghost use Rattle.outside_io.specs.believed.Seen.{KeepsFiles};
ghost use Rattle.row_text.specs.RowFiles.{row_seen, seeds_seen, suite_seen};
ghost use Rattle.row_text.specs.Readings.{mode_seen};
ghost use Rattle.definitions.specs.believed.RowReading.{read_rows};
ghost use Rattle.jeldroft_files.specs.believed.Tables.{is_comma};
ghost use Rattle.jeldroft_inputs.specs.believed.Inputs.{rows_or_cause};
ghost use Rattle.jeldroft_shrink.specs.believed.Reading.{first_flaw, given_flaw, given_in, lines_of, lines_read, row_flaw, tests_of};
ghost use Rattle.jeldroft_shrink.specs.Steps.{Gives};

use crate::cause::{ShrinkCause, ShrinkFailure};
use crate::named::{fault_named, flaw_named};
use crate::table_notes::TableNotes;
use command_line::Stop;
use cov_model::TestModel;
use jeldroft_args::Delimiter;
use jeldroft_files::read_table_text;
use model_lex::NoteList;
use outside_io::Folder;
use row_text::{FileRow, RowFile, RowMode, is_complete, read_rows};
use std::alloc::Global;

// The most rows that may be made fewer.
const MOST_ROWS: usize = 65_533;

// The rows that the bytes of a table hold. `notes` gets the notes on them.
fn read_bytes<'n>(
    alloc: Global,
    model: &TestModel,
    mode: RowMode,
    name: &'n str,
    bytes: &[u8],
    notes: &mut NoteList,
) -> Result<RowFile, ShrinkFailure<'n>>
    requires within { length bytes.now ≤ 2 ^ 28 }
    ensures reads { Gives seeds_seen (lines_read (rows_or_cause (read_rows model.now (mode_seen mode) bytes.now))) result }
    ensures fit { IfOk result (λ file. All (λ row. FitsModel model.now row.cells) file.rows) }
{
    match read_rows(alloc, bytes, model, mode) {
        Ok(file) => {
            *notes = file.notes;
            Ok(RowFile {
                rows: file.rows,
                notes: NoteList::new(alloc),
            })
        }
        Err(fault) => {
            let named = fault_named(alloc, model, fault);
            Err(ShrinkFailure::stop(name, Stop::from(fault)).naming(named))
        }
    }
}

/// The rows of a file of rows. `notes` gets what there is to warn of.
///
/// # Errors
///
/// A failure of the file, or what its rows are refused for.
pub(crate) fn read_file<'n, F: Folder>(
    alloc: Global,
    model: &TestModel,
    mode: RowMode,
    name: &'n str,
    delimiter: Option<Delimiter>,
    files: &mut F,
    notes: &mut TableNotes,
) -> Result<RowFile, ShrinkFailure<'n>>
    ensures reads { IfSome ((F.seen files.old).files name.now) (λ held.
        Gives seeds_seen (lines_of model.now (mode_seen mode) (is_comma delimiter name.now) held) result) }
    ensures fit { IfOk result (λ file. All (λ row. FitsModel model.now row.cells) file.rows) }
    ensures files { KeepsFiles (F.seen files.old) (F.seen files.new) }
{
    let text = read_table_text(alloc, name, delimiter, files)?;
    let read = read_bytes(
        alloc,
        model,
        mode,
        name,
        text.tabs.as_slice(),
        &mut notes.rows,
    );
    notes.keep(text);
    read
}

// What is wrong with a row: it leaves a parameter without a value, or it isn't valid.
fn row_flaw(model: &TestModel, row: &FileRow) -> Option<ShrinkCause>
    requires { FitsModel model.now row.now.cells }
    ensures { result ≡ row_flaw model.now (row_seen row.now) }
{
    model.assert_invariant();
    if !is_complete(&row.cells) {
        return Some(ShrinkCause::Incomplete(row.line));
    }
    match model.row_fault(&row.cells) {
        Some(why) => Some(ShrinkCause::Invalid(row.line, why)),
        None => None,
    }
}

// What is wrong with the first row with which anything is.
fn first_flaw(model: &TestModel, file: &RowFile) -> Option<ShrinkCause>
    requires { All (λ row. FitsModel model.now row.cells) file.now.rows }
    ensures { result ≡ first_flaw model.now (seeds_seen file.now) }
{
    for row in file.rows.as_slice() {
        match row_flaw(model, row) {
            Some(cause) => return Some(cause),
            None => {}
        }
    }
    None
}

// Why the rows of a table can't be made fewer: there are too many, or something is wrong with one of them.
fn given_flaw(model: &TestModel, file: &RowFile) -> Option<ShrinkCause>
    requires { All (λ row. FitsModel model.now row.cells) file.now.rows }
    ensures { result ≡ given_flaw model.now (seeds_seen file.now) }
{
    let count = file.rows.len();
    if count > MOST_ROWS {
        return Some(ShrinkCause::TooManyRows(count as u64));
    }
    first_flaw(model, file)
}

// The rows of a file, unless something is wrong with them.
fn unless_flawed<'n>(
    alloc: Global,
    model: &TestModel,
    name: &'n str,
    file: RowFile,
) -> Result<RowFile, ShrinkFailure<'n>>
    requires { All (λ row. FitsModel model.now row.cells) file.rows }
    ensures reads { Gives seeds_seen (tests_of model.now (Ok (seeds_seen file))) result }
    ensures valid { IfOk result (λ given. All (λ row. is_valid model.now row ≡ true) (suite_seen given)) }
    ensures fit { IfOk result (λ given. All (λ row. FitsModel model.now row.cells) given.rows) }
{
    match given_flaw(model, &file) {
        Some(cause) => {
            let named = flaw_named(alloc, model, &file, &cause);
            Err(ShrinkFailure {
                file: name,
                cause,
                refused: None,
                named,
            })
        }
        None => Ok(file),
    }
}

/// The rows of a table, each a test of the model. `notes` gets what there is to warn of, also where they are refused.
///
/// # Errors
///
/// A failure of the file; what its rows are refused for as those of a whole suite; `TooManyRows` where there are more than
/// 65,533; else `Incomplete` or `Invalid` of the first row that leaves a parameter without a value or isn't valid.
pub(crate) fn read_given<'n, F: Folder>(
    alloc: Global,
    model: &TestModel,
    name: &'n str,
    delimiter: Option<Delimiter>,
    files: &mut F,
    notes: &mut TableNotes,
) -> Result<RowFile, ShrinkFailure<'n>>
    ensures reads { IfSome ((F.seen files.old).files name.now) (λ held.
        Gives seeds_seen (given_in model.now (is_comma delimiter name.now) held) result) }
    ensures valid { IfOk result (λ given. All (λ row. is_valid model.now row ≡ true) (suite_seen given)) }
    ensures fit { IfOk result (λ given. All (λ row. FitsModel model.now row.cells) given.rows) }
    ensures files { KeepsFiles (F.seen files.old) (F.seen files.new) }
{
    let file = read_file(alloc, model, RowMode::Suite, name, delimiter, files, notes)?;
    unless_flawed(alloc, model, name, file)
}

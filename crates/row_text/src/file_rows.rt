ghost use Rattle.std.specs.Prelude.{◌≡◌, [], ◌∷◌, ◌++◌, ◌<◌, ◌≤◌, ◌==◌, ℕ, List, Some, None, if◌then◌else◌, map, find, count_by, length, nat_lt, All, IfOk, IfSome, OnOk};
ghost use Rattle.std.specs.List.{flat_map};
ghost use Rattle.std.specs.Option.{option_map, option_or};
ghost use Rattle.definitions.specs.believed.RowFile.{cells_of_line, named_param, row_of_line};
ghost use Rattle.definitions.specs.believed.RowReading.{count_fault, value_notes, width_fault};
ghost use Rattle.row_text.specs.believed.Readings.{note_told};
ghost use Rattle.row_text.specs.RowFiles.{seeds_seen};
ghost use Rattle.row_text.specs.RowLines.{AreOnce, Finds, is_unknown_cell, line_seen, with_cell};

use crate::filled_lines::{FilledLine, FilledLines};
use crate::header::Header;
use crate::line_cells::LineCells;
use crate::model_names::ModelNames;
use crate::row_file::{FileRow, FileRowList, RowFile};
use crate::rows_fault::RowsFault;
use cov_model::{Cells, ParamNo};
use model_lex::{Note, NoteCode, NoteList};
use std::alloc::Global;
use value_text::NoMemory;

/// The most rows of a row file.
const MOST_ROWS: u64 = 1 << 20;

/// How many tabs stand in a line.
#[tactic(auto, using(crate::proofs::LineSteps::tabs_within))]
fn tab_count(text: &[u8]) -> usize
    ensures value { result ≡ count_by (λ byte. byte == 9) text.now }
    ensures within { result ≤ length text.now }
{
    text.iter().filter(|byte| **byte == b'\t').count()
}

/// How many cells a line has.
#[tactic(auto, using(crate::proofs::LineSteps::length_cells))]
fn cell_count(text: &[u8]) -> usize
    ensures { result ≡ length (cells_of_line text.now) }
{
    tab_count(text) + 1
}

/// The number of a line that has more cells than the header has columns.
fn wide_line(line: FilledLine<'_>, columns: usize) -> Option<u32>
    ensures { result ≡ (if nat_lt columns (length (cells_of_line line.entry.text.now)) then Some line.entry.number else None) }
{
    if cell_count(line.text) > columns {
        Some(line.number)
    } else {
        None
    }
}

/// How many lines there are, and the first with more cells than the header has columns.
fn count_lines(mut lines: FilledLines<'_>, columns: usize) -> (u64, Option<u32>)
    ensures count { result.0 ≡ length lines.entry }
    ensures wide { result.1 ≡ option_map (λ line. line.0) (find (λ line. nat_lt columns (length (cells_of_line line.1))) lines.entry) }
{
    lines.assert_invariant();
    let mut count = 0;
    let mut wide = None;
    while let Some(line) = lines.take_line() {
        count += 1;
        wide = wide.or(wide_line(line, columns));
    }
    (count, wide)
}

/// Looks for too many lines under a header of so many columns, then for a line with too many cells.
///
/// # Errors
///
/// `TooManyRows` with their number, where there are more than 2^20, then `Width` with the first line that has more
/// cells than the header.
pub(crate) fn check_lines(lines: &FilledLines<'_>, columns: usize) -> Result<(), RowsFault>
    ensures { (header : List (List ℕ)) → length header ≡ columns
        → Finds (option_or (count_fault (length lines.now)) (width_fault header lines.now)) result }
{
    let (count, wide) = count_lines(lines.again(), columns);
    if count > MOST_ROWS {
        return Err(RowsFault::TooManyRows(count));
    }
    match wide {
        Some(line) => Err(RowsFault::Width(line)),
        None => Ok(()),
    }
}

/// Gives the parameter of a column the value that a cell names. Tells whether the cell has a text that names none.
fn read_cell(
    names: &mut ModelNames<'_>,
    column: Option<ParamNo>,
    cell: &[u8],
    row: &mut Cells,
) -> Result<bool, NoMemory>
    requires within { IfSome column (λ p. p < length names.old.params) }
    requires long { length row.old ≡ length names.old.params }
    ensures row { OnOk result (row.new ≡ with_cell names.old column cell.now row.old) }
    ensures unknown { IfOk result (λ unknown. unknown ≡ is_unknown_cell names.old column cell.now) }
    ensures long { length row.new ≡ length row.old }
    ensures same { names.new ≡ names.old }
{
    let Some(p) = column else {
        return Ok(false);
    };
    match names.value(p, cell)? {
        Some(v) => {
            row.set_cell(p, v);
            Ok(false)
        }
        None => Ok(!cell.is_empty()),
    }
}

/// Adds a note, where one is due.
fn note_if(due: bool, note: Note, notes: &mut NoteList) -> Result<(), NoMemory>
    ensures { OnOk result (notes.new ≡ notes.old ++ (if due then note ∷ [] else [])) }
{
    if due { notes.push(note) } else { Ok(()) }
}

/// The partial row that a line gives under columns of these parameters. Puts a note behind others for each cell that
/// names no value.
fn read_row(
    alloc: Global,
    names: &mut ModelNames<'_>,
    columns: &[Option<ParamNo>],
    line: FilledLine<'_>,
    notes: &mut NoteList,
) -> Result<Cells, NoMemory>
    requires within { All (λ column. IfSome column (λ p. p < length names.old.params)) columns.now }
    requires narrow { length (cells_of_line line.text.now) ≤ length columns.now }
    ensures row { IfOk result (λ row. (header : List (List ℕ)) → columns.now ≡ map (named_param names.old) header
        → AreOnce names.old header → row ≡ row_of_line names.old header line.entry.text.now) }
    ensures notes { OnOk result ((header : List (List ℕ)) → columns.now ≡ map (named_param names.old) header
        → notes.new ≡ notes.old ++ map note_told (value_notes names.old header (line_seen line.entry))) }
    ensures same { names.new ≡ names.old }
{
    let unknown = Note {
        line: line.number,
        code: NoteCode::UnknownValue,
    };
    let mut row = Cells::empty(alloc, names.param_count())?;
    let mut cells = LineCells::new(line.text);
    let mut place = 0;
    while let Some(cell) = cells.take_cell() {
        let due = read_cell(names, columns[place], cell, &mut row)?;
        note_if(due, unknown, notes)?;
        place += 1;
    }
    Ok(row)
}

/// The rows of lines under a header, with its notes and theirs.
///
/// # Errors
///
/// `NoMemory` where memory was refused.
pub(crate) fn read_lines(
    alloc: Global,
    names: &mut ModelNames<'_>,
    header: Header,
    mut lines: FilledLines<'_>,
) -> Result<RowFile, NoMemory>
    requires within { All (λ column. IfSome column (λ p. p < length names.old.params)) header.columns }
    requires narrow { All (λ line. length (cells_of_line line.1) ≤ length header.columns) lines }
    ensures rows { IfOk result (λ file. (cells : List (List ℕ)) → header.columns ≡ map (named_param names.old) cells
        → AreOnce names.old cells → seeds_seen file ≡ map (λ line. (line.0, row_of_line names.old cells line.1)) lines.entry) }
    ensures notes { IfOk result (λ file. (cells : List (List ℕ)) → header.columns ≡ map (named_param names.old) cells
        → file.notes ≡ header.notes ++ map note_told (flat_map (value_notes names.old cells) lines.entry)) }
{
    let Header { columns, mut notes } = header;
    let mut rows = FileRowList::new(alloc);
    while let Some(line) = lines.take_line() {
        let cells = read_row(alloc, names, columns.as_slice(), line, &mut notes)?;
        rows.push(FileRow {
            line: line.number,
            cells,
        })?;
    }
    Ok(RowFile { rows, notes })
}

ghost use Rattle.std.specs.Prelude.{◌≡◌, ◌≢◌, ◌+◌, ◌≤◌, ◌<◌, ◌^◌, Some, None, if◌then◌else◌, [], codes, drop};
ghost use Rattle.std.specs.Prelude.{false, find, is_none, length, map, position, slice_index_or, unwrap_or, IfOk, IfErr, IfSome, OnOk};
ghost use Rattle.definitions.specs.believed.RowFile.{cells_of_line};
ghost use Rattle.suspect_tuples.specs.believed.ResultReading.{has_failed, read_results, result_fault, result_of_line};
ghost use Rattle.suspect_tuples.specs.Results.{AreResultsOf, ReadsResults, result_fault_of};
ghost use Rattle.value_text.specs.believed.Texts.{is_same_text};

use crate::result_file::{FlagList, ResultFile};
use crate::results_fault::ResultsFault;
use cov_model::TestModel;
use model_lex::{Note, NoteList};
use row_text::{FilledLines, LineCells, RowFile, RowMode, RowsFault, read_rows};
use std::alloc::Global;
use value_text::NoMemory;

// Whether two texts are one under the case rule.
fn is_same(text: &[u8], other: &[u8], fold: bool) -> bool
    ensures { result ≡ is_same_text fold text.now other.now }
{
    if fold {
        text.eq_ignore_ascii_case(other)
    } else {
        text == other
    }
}

// The place of the first cell of a header that is `:result` under the case rule.
fn result_column(header: &[u8], fold: bool) -> Option<usize>
    ensures { result ≡ position (λ cell. is_same_text fold (codes ":result") cell) (cells_of_line header.now) }
{
    let mut cells = LineCells::new(header);
    for place in 0..header.len() + 1 {
        let cell = cells.take_cell()?;
        if is_same(b":result", cell, fold) {
            return Some(place);
        }
    }
    None
}

// The cell of a line at a place, empty where the line ends before it.
fn cell_at(line: &[u8], place: usize) -> &[u8]
    ensures { result.now ≡ slice_index_or (cells_of_line line.now) place [] }
{
    let mut cells = LineCells::new(line);
    let mut left = place;
    while let Some(cell) = cells.take_cell() {
        if left == 0 {
            return cell;
        }
        left -= 1;
    }
    &[]
}

// Whether a test failed, by the text of a cell, in which case doesn't count.
fn has_failed(cell: &[u8]) -> Option<bool>
    ensures { result ≡ has_failed cell.now }
{
    if is_same(b"pass", cell, true) {
        return Some(false);
    }
    if is_same(b"fail", cell, true) {
        return Some(true);
    }
    None
}

// Of each line whether its test failed.
//
// `BadResult` with the first line whose cell in the column says neither. `NoMemory` where memory was refused.
fn read_failed(
    alloc: Global,
    mut lines: FilledLines<'_>,
    column: usize,
) -> Result<FlagList, ResultsFault>
    ensures flags { IfOk result (λ failed. failed ≡ map (λ line. unwrap_or (result_of_line column line.1) false) lines.entry) }
    ensures good { OnOk result (result_fault column lines.entry ≡ None) }
    ensures bad { IfErr result (λ fault. IfSome (result_fault_of fault) (λ given. result_fault column lines.entry ≡ Some given)) }
    ensures apart { IfErr result (λ fault. fault ≢ ResultsFault.Rows RowsFault.NoMemory) }
{
    let mut failed = FlagList::new(alloc);
    while let Some(line) = lines.take_line() {
        match has_failed(cell_at(line.text, column)) {
            Some(flag) => failed.push(flag)?,
            None => return Err(ResultsFault::BadResult(line.number)),
        }
    }
    Ok(failed)
}

// The notes but the first.
fn later_notes(alloc: Global, notes: &[Note]) -> Result<NoteList, NoMemory>
    requires { 1 ≤ length notes.now }
    ensures { IfOk result (λ later. later ≡ drop 1 notes.now) }
{
    let mut later = NoteList::new(alloc);
    for note in &notes[1..] {
        later.push(*note)?;
    }
    Ok(later)
}

/// The rows of a file of results, and of each whether its test failed (this project's rules). It is a row file in the
/// mode of suites. The first cell of its header that is `:result` under the case rule is the result column, and gets
/// no note. The cells under it are `pass` or `fail` in any case, without the spaces at their ends. The file may have at
/// most 2^28 bytes.
///
/// # Errors
///
/// The first of these: `Rows` where the row file is refused; `NoResult` where no cell of the header is `:result`;
/// `BadResult` with the first line under the header whose cell in the result column is another text, empty or
/// missing. `NoMemory` where memory was refused, also where the rows are read.
pub fn read_results(
    alloc: Global,
    bytes: &[u8],
    model: &TestModel,
) -> Result<ResultFile, ResultsFault>
    requires { length bytes.now ≤ 2 ^ 28 }
    ensures reads { ReadsResults (read_results model.now bytes.now) result }
    ensures apart { IfErr result (λ fault. fault ≢ ResultsFault.Rows RowsFault.NoMemory) }
    ensures file { IfOk result (AreResultsOf model.now) }
{
    let file = read_rows(alloc, bytes, model, RowMode::Suite)?;
    let mut lines = FilledLines::new(bytes);
    let Some(header) = lines.take_line() else {
        return Err(ResultsFault::NoResult);
    };
    let Some(column) = result_column(header.text, model.fold()) else {
        return Err(ResultsFault::NoResult);
    };
    let failed = read_failed(alloc, lines, column)?;
    let notes = later_notes(alloc, file.notes.as_slice())?;
    let rows = RowFile {
        rows: file.rows,
        notes,
    };
    Ok(ResultFile { rows, failed })
}

//! Row files that are read, and what is expected of them.

use cov_model::{Cells, ParamNo, TestModel, ValueNo};
use model_lex::NoteCode;
use row_text::{RowFile, RowMode, RowsFault, read_rows};
use std::alloc::Global;

/// The most bytes of a row file.
const MOST_BYTES: usize = 1 << 26;

/// What is expected of a partial row: its line and its values.
pub(crate) type Row<'a> = (u32, &'a [Option<ValueNo>]);

/// The row file that the bytes are under a model.
///
/// # Errors
///
/// As from `read_rows`; and `NoMemory` for more than 2^26 bytes, which no test has.
pub(crate) fn file_of(
    alloc: Global,
    model: &TestModel,
    bytes: &[u8],
    mode: RowMode,
) -> Result<RowFile, RowsFault> {
    if bytes.len() > MOST_BYTES {
        return Err(RowsFault::NoMemory);
    }
    read_rows(alloc, bytes, model, mode)
}

// Whether a partial row gives these values.
fn gives(cells: &Cells, values: &[Option<ValueNo>]) -> bool {
    if cells.len() != values.len() || values.len() > 256 {
        return false;
    }
    for p in 0..values.len() {
        if cells.get(p as ParamNo) != values[p] {
            return false;
        }
    }
    true
}

// Whether a row file has these rows.
fn has_rows(file: &RowFile, rows: &[Row<'_>]) -> bool {
    if file.rows.len() != rows.len() {
        return false;
    }
    for (row, (line, values)) in file.rows.as_slice().iter().zip(rows) {
        if row.line != *line || !gives(&row.cells, values) {
            return false;
        }
    }
    true
}

// Whether a row file has these notes.
fn has_notes(file: &RowFile, notes: &[(u32, NoteCode)]) -> bool {
    if file.notes.len() != notes.len() {
        return false;
    }
    for (note, (line, code)) in file.notes.as_slice().iter().zip(notes) {
        if note.line != *line || note.code != *code {
            return false;
        }
    }
    true
}

/// Whether the bytes are a row file of a model, with these rows and notes.
pub(crate) fn has_file(
    alloc: Global,
    model: &TestModel,
    bytes: &[u8],
    mode: RowMode,
    rows: &[Row<'_>],
    notes: &[(u32, NoteCode)],
) -> bool {
    match file_of(alloc, model, bytes, mode) {
        Ok(file) => has_rows(&file, rows) && has_notes(&file, notes),
        Err(_) => false,
    }
}

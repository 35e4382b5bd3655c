use crate::finding::Finding;
use crate::lookup::{has_value_named, param_named};
use crate::shown::Shown;
use cov_model::{Param, TestModel};
use itoa::Buffer;
use jeldroft_files::TableText;
use model_lex::{Note, NoteCode};
use outside_io::Sink;
use std::str::from_utf8;

// A line of a table whose cells tabs part.
#[derive(Drop, Clone, Copy)]
struct TableLine<'a> {
    // The line with the names of the parameters.
    header: &'a str,
    text: &'a str,
    // Whether its columns are those of the file.
    is_exact: bool,
}

impl TableLine<'_> {
    // The column, where it is known.
    fn column(&self, column: u32) -> Option<u32> {
        if self.is_exact { Some(column) } else { None }
    }
}

/// A cell without the spaces at its ends.
pub(crate) fn without_spaces(cell: &str) -> &str {
    cell.trim_matches(' ')
}

// A count as a column.
fn columns(count: usize) -> u32 {
    match u32::try_from(count) {
        Ok(columns) => columns,
        Err(_) => u32::MAX,
    }
}

/// The column of the text of a cell, which begins in this column with spaces.
pub(crate) fn text_column(start: u32, cell: &str) -> u32 {
    let spaces = cell
        .len()
        .saturating_sub(cell.trim_start_matches(' ').len());
    start.saturating_add(columns(spaces))
}

/// The column in which the next cell begins.
pub(crate) fn next_column(start: u32, cell: &str) -> u32 {
    start
        .saturating_add(columns(cell.chars().count()))
        .saturating_add(1)
}

// The parameter of a column.
fn param_of<'m>(model: &'m TestModel, header: &str, column: usize) -> Option<&'m Param> {
    let cell = header.split('\t').nth(column)?;
    param_named(model, without_spaces(cell))
}

// Whether a cell of this column isn't empty and names no value of the column's parameter, which it gives then.
fn param_misnamed<'m>(
    model: &'m TestModel,
    header: &str,
    column: usize,
    cell: &str,
) -> Option<&'m Param> {
    if cell.is_empty() {
        return None;
    }
    let param = param_of(model, header, column)?;
    if has_value_named(model, param, cell) {
        return None;
    }
    Some(param)
}

// Writes a warning.
fn warn<E: Sink>(file: &str, note: &Note, words: &str, diag: &mut E) {
    let mut finding = Finding::on(diag, file);
    finding.place(note.line);
    finding.text(": warning: ");
    finding.text(words);
    finding.code(note.code.code());
}

// Writes the warning on a column that no parameter has.
fn warn_of_column<E: Sink>(file: &str, note: &Note, column: Option<u32>, name: &str, diag: &mut E) {
    let shown = Shown::of(name.as_bytes());
    let mut finding = Finding::on(diag, file);
    finding.place(note.line);
    finding.column(column);
    finding.text(": warning: no parameter is named \"");
    finding.text(shown.text());
    finding.text(shown.end());
    finding.text("\"; the column is ignored");
    finding.code(note.code.code());
}

// Writes the warning on a cell of a parameter's column that names none of its values.
fn warn_of_value<E: Sink>(
    file: &str,
    note: &Note,
    column: Option<u32>,
    param: &Param,
    cell: &str,
    diag: &mut E,
) {
    let shown = Shown::of(cell.as_bytes());
    let mut finding = Finding::on(diag, file);
    finding.place(note.line);
    finding.column(column);
    finding.text(": warning: column ");
    finding.text(param.name.as_str());
    finding.text(": \"");
    finding.text(shown.text());
    finding.text(shown.end());
    finding.text("\" is no value of it; the cell is ignored");
    finding.code(note.code.code());
}

// Writes the warning on a cell of the header that names no parameter: on the one behind so many others.
fn tell_column<E: Sink>(
    file: &str,
    header: TableLine<'_>,
    others: usize,
    model: &TestModel,
    note: &Note,
    diag: &mut E,
) {
    let mut left = others;
    let mut start = 1;
    for cell in header.text.split('\t') {
        let name = without_spaces(cell);
        if param_named(model, name).is_none() {
            if left == 0 {
                let column = header.column(text_column(start, cell));
                warn_of_column(file, note, column, name, diag);
                return;
            }
            left -= 1;
        }
        start = next_column(start, cell);
    }
}

// Writes the warning on a cell that names no value: on the one behind so many others of its line.
fn tell_value<E: Sink>(
    file: &str,
    line: TableLine<'_>,
    others: usize,
    model: &TestModel,
    note: &Note,
    diag: &mut E,
) {
    let mut left = others;
    let mut start = 1;
    for (number, cell) in line.text.split('\t').enumerate() {
        let name = without_spaces(cell);
        if let Some(param) = param_misnamed(model, line.header, number, name) {
            if left == 0 {
                let column = line.column(text_column(start, cell));
                warn_of_value(file, note, column, param, name, diag);
                return;
            }
            left -= 1;
        }
        start = next_column(start, cell);
    }
}

// Writes the warnings on a line.
fn tell_line<E: Sink>(
    file: &str,
    line: TableLine<'_>,
    model: &TestModel,
    notes: &[Note],
    diag: &mut E,
) {
    for (others, note) in notes.iter().enumerate() {
        match note.code {
            NoteCode::UnknownColumn => {
                tell_column(file, line, others, model, note, diag);
            }
            NoteCode::UnknownValue => tell_value(file, line, others, model, note, diag),
            NoteCode::RepeatedValueName | NoteCode::RowDropped => {
                warn(file, note, note.code.text(), diag);
            }
        }
    }
}

/// How many of the first notes are on this line, counted from 0.
pub(crate) fn count_on(notes: &[Note], line: usize) -> usize {
    for (count, note) in notes.iter().enumerate() {
        if note.line.saturating_sub(1) as usize != line {
            return count;
        }
    }
    notes.len()
}

/// The first line that isn't empty.
pub(crate) fn header_of(text: &str) -> &str {
    for line in text.lines() {
        if !line.is_empty() {
            return line;
        }
    }
    ""
}

/// A text without a byte-order mark at its start.
pub(crate) fn without_mark(text: &str) -> &str {
    match text.strip_prefix('\u{feff}') {
        Some(rest) => rest,
        None => text,
    }
}

// Writes the warnings on cells, which are in the order of their lines. The columns of a line are those of the file where
// the file has the same line, or one with commas and without quotes.
fn tell_cells<E: Sink>(
    file: &str,
    text: &str,
    whole: &str,
    model: &TestModel,
    notes: &[Note],
    diag: &mut E,
) {
    let header = header_of(text);
    let mut file_lines = whole.lines();
    let mut rest = notes;
    for (number, text) in text.lines().enumerate() {
        if rest.is_empty() {
            return;
        }
        let is_exact = match file_lines.next() {
            Some(line) => line == text || !line.contains('"'),
            None => false,
        };
        let Some((here, behind)) = rest.split_at_checked(count_on(rest, number)) else {
            return;
        };
        let line = TableLine {
            header,
            text,
            is_exact,
        };
        tell_line(file, line, model, here, diag);
        rest = behind;
    }
}

// Writes the warnings on a table in words that don't say what stands there.
fn tell_plainly<E: Sink>(file: &str, notes: &[Note], diag: &mut E) {
    for note in notes {
        warn(file, note, note.code.text(), diag);
    }
}

// Writes the warnings on a table, by its bytes with tabs and those of the file.
fn tell_notes_of<E: Sink>(
    file: &str,
    bytes: &[u8],
    whole: &[u8],
    model: &TestModel,
    notes: &[Note],
    diag: &mut E,
) {
    match (from_utf8(bytes), from_utf8(whole)) {
        (Ok(text), Ok(whole)) => {
            tell_cells(
                file,
                without_mark(text),
                without_mark(whole),
                model,
                notes,
                diag,
            );
        }
        _ => tell_plainly(file, notes, diag),
    }
}

/// Writes the warnings on the table of this name, whose bytes these are, with tabs between its cells: which column names
/// no parameter, and which cell names no value.
pub fn tell_table_notes<E: Sink>(
    file: &str,
    bytes: &[u8],
    model: &TestModel,
    notes: &[Note],
    diag: &mut E,
) {
    tell_notes_of(file, bytes, b"", model, notes, diag);
}

/// The same, with the columns of the file where they are known: of a table with commas in each row without quotes.
pub fn tell_text_notes<E: Sink>(
    file: &str,
    table: &TableText,
    model: &TestModel,
    notes: &[Note],
    diag: &mut E,
) {
    let tabs = table.tabs.as_slice();
    let whole = if table.commas.is_empty() {
        tabs
    } else {
        table.commas.as_slice()
    };
    tell_notes_of(file, tabs, whole, model, notes, diag);
}

/// Writes the warning on a seed test, in this line of the file, that no valid test contains.
pub fn tell_dropped_seed<E: Sink>(file: &str, line: u32, diag: &mut E) {
    let note = Note {
        line,
        code: NoteCode::RowDropped,
    };
    warn(
        file,
        &note,
        "no valid test contains this row; it is left out",
        diag,
    );
}

/// Writes the warning on a seed test, in this line of the file, that a constraint of the model file forbids by itself.
pub fn tell_forbidden_seed<E: Sink>(
    file: &str,
    line: u32,
    number: u32,
    rule_line: u32,
    diag: &mut E,
) {
    let mut number_buffer = Buffer::new();
    let mut line_buffer = Buffer::new();
    let number = number_buffer.format(number);
    let rule_line = line_buffer.format(rule_line);
    let mut finding = Finding::on(diag, file);
    finding.place(line);
    finding.text(": warning: constraint ");
    finding.text(number);
    finding.text(" (line ");
    finding.text(rule_line);
    finding.text(") forbids this row; it is left out");
    finding.code(NoteCode::RowDropped.code());
}

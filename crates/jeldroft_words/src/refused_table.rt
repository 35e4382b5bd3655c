//! Where a table is refused, in the names that stand there.
use crate::finding::Finding;
use crate::lookup::param_named;
use crate::shown::Shown;
use crate::table_notes::{header_of, next_column, text_column, without_mark, without_spaces};
use command_line::Stop;
use cov_model::{Param, TestModel};
use jeldroft_files::{Cause, TableText};
use outside_io::Sink;
use row_text::RowsFault;
use std::str::from_utf8;
use value_text::same_text;

// A table with tabs between its cells, and as its file has it.
#[derive(Drop, Clone, Copy)]
struct Lines<'a> {
    tabs: &'a str,
    file: &'a str,
}

// A cell, with the column in which its text begins.
#[derive(Drop, Clone, Copy)]
struct Cell<'a> {
    column: u32,
    text: &'a str,
}

impl<'a> Lines<'a> {
    // Those of a table, where it is text.
    fn of(table: &'a TableText) -> Option<Lines<'a>> {
        let tabs = table.tabs.as_slice();
        let file = if table.commas.is_empty() {
            tabs
        } else {
            table.commas.as_slice()
        };
        match (from_utf8(tabs), from_utf8(file)) {
            (Ok(tabs), Ok(file)) => Some(Lines {
                tabs: without_mark(tabs),
                file: without_mark(file),
            }),
            _ => None,
        }
    }

    // The line of a number, from 1.
    fn line(&self, number: u32) -> Option<&'a str> {
        self.tabs.lines().nth(number.saturating_sub(1) as usize)
    }

    // The column of a cell in the line of a number, where it is that of the file: there the line is the same, or has no
    // quotes.
    fn column(&self, number: u32, cell: Cell<'_>) -> Option<u32> {
        let place = number.saturating_sub(1) as usize;
        let file_line = self.file.lines().nth(place)?;
        if file_line.contains('"') && self.tabs.lines().nth(place)? != file_line {
            return None;
        }
        Some(cell.column)
    }
}

// The cell at a place of a line, from 0.
fn cell_at(line: &str, place: usize) -> Option<Cell<'_>> {
    let mut start = 1;
    for (number, cell) in line.split('\t').enumerate() {
        if number == place {
            return Some(Cell {
                column: text_column(start, cell),
                text: without_spaces(cell),
            });
        }
        start = next_column(start, cell);
    }
    None
}

// Whether a cell of a header before this place has a name.
fn is_named_before(header: &str, place: usize, name: &str, fold: bool) -> bool {
    let first = header
        .split('\t')
        .position(|cell| same_text(without_spaces(cell), name, fold));
    match first {
        Some(first) => first < place,
        None => false,
    }
}

// The place of the first column whose parameter has one before it, with that parameter.
fn second_column<'m>(header: &str, model: &'m TestModel) -> Option<(usize, &'m Param)> {
    for (place, cell) in header.split('\t').enumerate() {
        let name = without_spaces(cell);
        if let Some(param) = param_named(model, name) {
            if is_named_before(header, place, name, model.fold()) {
                return Some((place, param));
            }
        }
    }
    None
}

// Writes that a parameter has a second column; `None` where it isn't found.
fn tell_twice<E: Sink>(
    file: &str,
    lines: Lines<'_>,
    number: u32,
    model: &TestModel,
    diag: &mut E,
) -> Option<()> {
    let header = lines.line(number)?;
    let (place, param) = second_column(header, model)?;
    let cell = cell_at(header, place)?;
    let mut finding = Finding::on(diag, file);
    finding.place(number);
    finding.column(lines.column(number, cell));
    finding.text(": error: expected one column for the parameter ");
    finding.text(param.name.as_str());
    finding.text(", found a second");
    finding.code("F2");
    Some(())
}

// Writes which cell is the first beyond the header; `None` where it isn't found.
fn tell_width<E: Sink>(file: &str, lines: Lines<'_>, number: u32, diag: &mut E) -> Option<()> {
    let header = header_of(lines.tabs);
    let count = header.split('\t').count();
    let last = cell_at(header, count.saturating_sub(1))?;
    let cell = cell_at(lines.line(number)?, count)?;
    let of_last = Shown::of(last.text.as_bytes());
    let of_cell = Shown::of(cell.text.as_bytes());
    let mut finding = Finding::on(diag, file);
    finding.place(number);
    finding.column(lines.column(number, cell));
    finding.text(": error: expected the end of the line behind the cell of column ");
    finding.text(of_last.text());
    finding.text(of_last.end());
    finding.text(", found another cell, \"");
    finding.text(of_cell.text());
    finding.text(of_cell.end());
    finding.text("\"");
    finding.code("F4");
    Some(())
}

/// Writes the line of the refusal of a table of tests of a model, with the column, where it is known, and with what stands
/// there. `None` where the cause is another, or where it isn't found; nothing is written then.
pub fn tell_refused_table<E: Sink>(
    file: &str,
    cause: &Cause,
    table: &TableText,
    model: &TestModel,
    diag: &mut E,
) -> Option<()> {
    let Cause::Stop(Stop::BadRows(fault)) = cause else {
        return None;
    };
    let lines = Lines::of(table)?;
    match fault {
        RowsFault::Twice(number) => tell_twice(file, lines, *number, model, diag),
        RowsFault::Width(number) => tell_width(file, lines, *number, diag),
        RowsFault::NoHeader
        | RowsFault::Missing(_)
        | RowsFault::TooManyRows(_)
        | RowsFault::NoMemory => None,
    }
}

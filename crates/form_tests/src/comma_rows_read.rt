//! What this project's reader of comma-separated values reads and refuses.

use crate::tables::{Cell, TABLES, Table, written};
use comma_rows::{CommaCause, CommaCell, CommaCells, CommaError, CommaFault, Position};
use row_forms::RowForm;
use std::alloc::Global;
use std::test::Fail;

// A cell of a text: its line and column, its text, and whether it ends its row.
type Told = (u32, u32, &'static str, bool);

const READ: &[(&[u8], &[Told])] = &[
    (b"", &[]),
    (b"\xef\xbb\xbf\n\r\n", &[]),
    (
        b"\xef\xbb\xbfa,b\r\n\r\n1,2",
        &[
            (1, 1, "a", false),
            (1, 3, "b", true),
            (3, 1, "1", false),
            (3, 3, "2", true),
        ],
    ),
    (
        b"\"a\nb\",\"c\"\"d\"\n,\n",
        &[
            (1, 1, "a\nb", false),
            (2, 4, "c\"d", true),
            (3, 1, "", false),
            (3, 2, "", true),
        ],
    ),
    (
        b"\xc3\xa4, \xc3\xb6 \r\n\"\"\r\n",
        &[(1, 1, "ä", false), (1, 3, " ö ", true), (2, 1, "", true)],
    ),
];

// Texts that are refused: the cells before the fault, its line and column, and the cause.
const REFUSED: &[(&[u8], usize, u32, u32, CommaCause)] = &[
    (b"a,b\n1,\"x\n2,3\n", 3, 2, 3, CommaCause::OpenQuote),
    (b"a\n\"x\" ,y\n", 1, 2, 4, CommaCause::TextAfterQuote),
    (b"5\" screen\n", 0, 1, 2, CommaCause::QuoteInText),
    (b"a,b\r1,2\r", 1, 1, 4, CommaCause::LoneReturn),
];

// Whether the cells of a text are these, and no more.
fn gives(alloc: Global, bytes: &[u8], told: &[Told]) -> bool {
    if bytes.len() > 1_000 {
        return false;
    }
    let mut cells = CommaCells::new(bytes);
    let mut text = Vec::new(alloc);
    for (line, column, wanted, ends_row) in told {
        let cell = CommaCell {
            at: Position {
                line: *line,
                column: *column,
            },
            ends_row: *ends_row,
        };
        if cells.take_cell(&mut text) != Ok(Some(cell)) || text.as_slice() != wanted.as_bytes() {
            return false;
        }
    }
    cells.take_cell(&mut text) == Ok(None)
}

#[test]
fn cells_have_their_places(rt: HostRuntime) {
    for (bytes, told) in READ {
        assert!(rt; gives(rt.alloc(), bytes, told));
    }
}

// What stands behind so many cells of a text.
fn fault_behind(alloc: Global, bytes: &[u8], count: usize) -> Option<CommaError> {
    if bytes.len() > 1_000 {
        return None;
    }
    let mut cells = CommaCells::new(bytes);
    let mut text = Vec::new(alloc);
    for _cell in 0..count {
        if cells.take_cell(&mut text).is_err() {
            return None;
        }
    }
    cells.take_cell(&mut text).err()
}

#[test]
fn what_rfc_4180_does_not_allow_is_refused(rt: HostRuntime) {
    for (bytes, count, line, column, cause) in REFUSED {
        let fault = CommaFault {
            at: Position {
                line: *line,
                column: *column,
            },
            cause: *cause,
        };
        assert!(rt; fault_behind(rt.alloc(), bytes, *count) == Some(CommaError::Fault(fault)));
    }
}

// Whether the next cells are of one row, with these texts.
fn is_row(cells: &mut CommaCells<'_>, text: &mut Vec<u8>, row: &[Cell]) -> bool {
    for (at, cell) in row.iter().enumerate() {
        let wanted = match cell {
            Some(wanted) => wanted.as_bytes(),
            None => b"",
        };
        match cells.take_cell(text) {
            Ok(Some(told)) => {
                if told.ends_row != (at + 1 == row.len()) || text.as_slice() != wanted {
                    return false;
                }
            }
            _ => return false,
        }
    }
    true
}

// Whether the next cells are names of one row.
fn is_head(cells: &mut CommaCells<'_>, text: &mut Vec<u8>, names: &[&str]) -> bool {
    for (at, name) in names.iter().enumerate() {
        match cells.take_cell(text) {
            Ok(Some(told)) => {
                if told.ends_row != (at + 1 == names.len()) || text.as_slice() != name.as_bytes() {
                    return false;
                }
            }
            _ => return false,
        }
    }
    true
}

// Whether a text has the cells of a table.
fn is_text_of(alloc: Global, bytes: &[u8], table: Table) -> bool {
    if bytes.len() > 10_000 {
        return false;
    }
    let mut cells = CommaCells::new(bytes);
    let mut text = Vec::new(alloc);
    if !is_head(&mut cells, &mut text, table.names) {
        return false;
    }
    for row in table.rows {
        if !is_row(&mut cells, &mut text, row) {
            return false;
        }
    }
    cells.take_cell(&mut text) == Ok(None)
}

#[test]
fn a_table_is_read_back(rt: HostRuntime) -> Result<(), Fail> {
    for table in TABLES {
        let text = written(rt.alloc(), RowForm::Csv, *table)?;
        assert!(rt; is_text_of(rt.alloc(), text.as_slice(), *table));
    }
    Ok(())
}

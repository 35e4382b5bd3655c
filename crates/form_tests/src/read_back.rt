//! Each form of a table, read back by the kit's readers of csv and json.

use crate::tables::{Cell, TABLES, Table, written};
use csv::{ByteRecord, ReaderBuilder};
use json::{Reader, Scratch, Token};
use row_forms::RowForm;
use std::alloc::Global;
use std::test::Fail;

// The text of a cell: an absent one is empty.
fn text_of(cell: Cell) -> &'static str {
    match cell {
        Some(text) => text,
        None => "",
    }
}

// Whether a record has the names of a table.
fn has_names(record: &ByteRecord, table: Table) -> bool {
    let mut same = record.len() == table.names.len();
    for (at, name) in table.names.iter().enumerate() {
        same = same && record.get(at) == Some(name.as_bytes());
    }
    same
}

// Whether a record has the cells of a row.
fn has_cells(record: &ByteRecord, row: &[Cell]) -> bool {
    let mut same = record.len() == row.len();
    for (at, cell) in row.iter().enumerate() {
        same = same && record.get(at) == Some(text_of(*cell).as_bytes());
    }
    same
}

// Whether the kit's reader of csv finds a table in a text; `false` too where it fails.
fn is_csv_of(alloc: Global, text: &[u8], table: Table) -> bool {
    let mut reader = ReaderBuilder::new()
        .has_headers(false)
        .from_reader(alloc, text);
    let mut record = ByteRecord::new(alloc);
    if !matches!(reader.read_byte_record(&mut record), Ok(true)) || !has_names(&record, table) {
        return false;
    }
    for row in table.rows {
        if !matches!(reader.read_byte_record(&mut record), Ok(true)) || !has_cells(&record, row) {
            return false;
        }
    }
    matches!(reader.read_byte_record(&mut record), Ok(false))
}

#[test]
fn csv_gives_the_cells_back(rt: HostRuntime) -> Result<(), Fail> {
    for table in TABLES {
        let text = written(rt.alloc(), RowForm::Csv, *table)?;
        assert!(rt; is_csv_of(rt.alloc(), text.as_slice(), *table));
    }
    Ok(())
}

// Whether the next tokens are the members of a row.
fn has_members(reader: &mut Reader<'_>, table: Table, row: &[Cell]) -> bool {
    for (name, cell) in table.names.iter().zip(row) {
        match reader.next() {
            Some(Token::Key(key)) => {
                if key != *name {
                    return false;
                }
            }
            _ => return false,
        }
        let same = match reader.next() {
            Some(Token::String(text)) => *cell == Some(text),
            Some(Token::Null) => cell.is_none(),
            _ => false,
        };
        if !same {
            return false;
        }
    }
    true
}

// Whether tokens are a table: an array of objects with its names and cells, in order.
fn is_array_of(reader: &mut Reader<'_>, table: Table) -> bool {
    if !matches!(reader.next(), Some(Token::BeginArray)) {
        return false;
    }
    for row in table.rows {
        let begins = matches!(reader.next(), Some(Token::BeginObject));
        if !begins
            || !has_members(reader, table, row)
            || !matches!(reader.next(), Some(Token::EndObject))
        {
            return false;
        }
    }
    matches!(reader.next(), Some(Token::EndArray)) && reader.next().is_none()
}

#[test]
fn json_gives_the_names_and_cells_back(rt: HostRuntime) -> Result<(), Fail> {
    for table in TABLES {
        let bytes = written(rt.alloc(), RowForm::Json, *table)?;
        let text = std::str::from_utf8(bytes.as_slice())?;
        let mut scratch = Scratch::new(rt.alloc());
        let mut reader = Reader::new(text, &mut scratch)?;
        assert!(rt; is_array_of(&mut reader, *table), "{text}");
    }
    Ok(())
}

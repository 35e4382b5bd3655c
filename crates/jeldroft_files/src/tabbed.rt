//! A table whose cells commas part, as one whose cells tabs part.
ghost use Rattle.std.specs.Prelude.{◌≡◌, ◌≤◌, ◌+◌, ◌^◌, [], ◌∷◌, ◌++◌, map, replicate, length, OnOk, IfOk, if◌then◌else◌};
ghost use Rattle.comma_rows.specs.Taking.{cell_seen};
ghost use Rattle.jeldroft_files.specs.believed.Tables.{cell_line, parting, shown_byte};
ghost use Rattle.jeldroft_files.specs.Tabbing.{AddsCell, Tabs};

use comma_rows::{CommaCell, CommaCells, CommaError};
use std::alloc::Global;
use value_text::NoMemory;

// Adds bytes.
fn add(bytes: &[u8], into: &mut Vec<u8>) -> Result<(), NoMemory>
    ensures { OnOk result (into.new.items ≡ into.old.items ++ bytes.now) }
{
    into.extend_from_slice(bytes)?;
    Ok(())
}

// Adds line feeds.
fn add_feeds(count: u64, into: &mut Vec<u8>) -> Result<(), NoMemory>
    ensures { OnOk result (into.new.items ≡ into.old.items ++ replicate count 10) }
{
    for _ in 0..count {
        add(b"\n", into)?;
    }
    Ok(())
}

// What stands in the table for a byte of a cell.
fn shown_byte(byte: u8) -> u8
    ensures { result ≡ shown_byte byte }
{
    if byte == b'\t' || byte == b'\n' || byte == b'\r' {
        1
    } else {
        byte
    }
}

// Adds the text of a cell.
fn add_text(text: &[u8], into: &mut Vec<u8>) -> Result<(), NoMemory>
    ensures { OnOk result (into.new.items ≡ into.old.items ++ map shown_byte text.now) }
{
    for byte in text {
        into.push(shown_byte(*byte))?;
    }
    Ok(())
}

// Adds what stands before a cell, and gives the line that the cell stands in.
fn start_cell(starts: bool, line: u64, cell: CommaCell, into: &mut Vec<u8>) -> Result<u64, NoMemory>
    requires { line ≤ length into.old.items }
    ensures { IfOk result (λ here. (here ≡ cell_line starts line (cell_seen cell []))
        × (here ≤ length into.new.items)
        × (into.new.items ≡ into.old.items ++ parting starts line (cell_seen cell []))) }
{
    if starts {
        let missing = u64::from(cell.at.line).saturating_sub(line);
        add_feeds(missing, into)?;
        Ok(line + missing)
    } else {
        add(b"\t", into)?;
        Ok(line)
    }
}

// Adds what stands behind a cell, and gives the line for the next one.
fn end_cell(ends_row: bool, line: u64, into: &mut Vec<u8>) -> Result<u64, NoMemory>
    requires { line ≤ length into.old.items }
    ensures { IfOk result (λ next. (next ≡ (if ends_row then line + 1 else line)) × (next ≤ length into.new.items)
        × (into.new.items ≡ into.old.items ++ (if ends_row then 10 ∷ [] else []))) }
{
    if ends_row {
        add(b"\n", into)?;
        Ok(line + 1)
    } else {
        Ok(line)
    }
}

// Adds a cell, and gives the line for the next one.
fn add_cell(
    starts: bool,
    line: u64,
    cell: CommaCell,
    text: &[u8],
    into: &mut Vec<u8>,
) -> Result<u64, NoMemory>
    requires { line ≤ length into.old.items }
    ensures { IfOk result (AddsCell starts line (cell_seen cell text.now) into.old.items into.new.items) }
{
    let here = start_cell(starts, line, cell, into)?;
    if starts && cell.ends_row && text.is_empty() {
        add(b" ", into)?;
    } else {
        add_text(text, into)?;
    }
    end_cell(cell.ends_row, here, into)
}

/// The bytes of a table whose cells commas part, as those of the table whose cells tabs part that says the same.
///
/// # Errors
///
/// `Fault` where RFC 4180 doesn't allow what the bytes hold, `NoMemory` where memory was refused.
pub(crate) fn tabbed(alloc: Global, bytes: &[u8]) -> Result<Vec<u8>, CommaError>
    requires { length bytes.now ≤ 2 ^ 26 }
    ensures table { Tabs bytes.now result }
    ensures within { IfOk result (λ table. length table.items ≤ 2 ^ 28) }
{
    let mut cells = CommaCells::new(bytes);
    let mut table = Vec::new(alloc);
    add(b"\xef\xbb\xbf", &mut table)?;
    let mut text = Vec::new(alloc);
    let mut starts = true;
    let mut line = 1;
    while let Some(cell) = cells.take_cell(&mut text)? {
        line = add_cell(starts, line, cell, text.as_slice(), &mut table)?;
        starts = cell.ends_row;
    }
    Ok(table)
}

//! A cell of comma-separated values (RFC 4180).
ghost use Rattle.std.specs.Prelude.{◌≡◌, ◌++◌, ◌∷◌, [], flat_map, OnOk, nat_eq};
ghost use Rattle.std.specs.List.{list_any, starts_with};
ghost use Rattle.model_lex.specs.believed.Lines.{byte_order_mark};
ghost use Rattle.row_forms.specs.believed.Csv.{csv_cell, doubled, has_blank_end, is_blank, is_mark, needs_quotes, quoted};

use crate::adding::{add, add_byte};
use value_text::NoMemory;

// Whether a byte parts cells or lines, or is a quote.
fn is_mark(byte: u8) -> bool
    ensures { result ≡ is_mark byte }
{
    byte == b',' || byte == b'"' || byte == b'\r' || byte == b'\n'
}

// Whether a byte is a space or a tab.
fn is_blank(byte: u8) -> bool
    ensures { result ≡ is_blank byte }
{
    byte == b' ' || byte == b'\t'
}

// Whether a cell has a mark.
fn has_mark(cell: &[u8]) -> bool
    ensures { result ≡ list_any is_mark cell.now }
{
    cell.iter().any(|byte| is_mark(*byte))
}

// Whether a blank stands at an end of a cell.
fn has_blank_end(cell: &[u8]) -> bool
    ensures { result ≡ has_blank_end cell.now }
{
    if cell.is_empty() {
        return false;
    }
    is_blank(cell[0]) || is_blank(cell[cell.len() - 1])
}

// Whether a cell begins with a byte-order mark.
fn begins_with_mark(cell: &[u8]) -> bool
    ensures { result ≡ starts_with nat_eq cell.now byte_order_mark }
{
    cell.starts_with(b"\xef\xbb\xbf")
}

// Whether a cell stands in quotes, which may be alone in its line or the first of the text.
fn needs_quotes(alone: bool, first: bool, cell: &[u8]) -> bool
    ensures { result ≡ needs_quotes alone first cell.now }
{
    has_mark(cell)
        || has_blank_end(cell)
        || (alone && cell.is_empty())
        || (first && begins_with_mark(cell))
}

// Adds a cell with each quote doubled.
fn add_doubled(cell: &[u8], into: &mut Vec<u8>) -> Result<(), NoMemory>
    ensures { OnOk result (into.new.items ≡ into.old.items ++ flat_map doubled cell.now) }
{
    for byte in cell {
        if *byte == b'"' {
            add_byte(b'"', into)?;
        }
        add_byte(*byte, into)?;
    }
    Ok(())
}

// Adds a cell in quotes.
fn add_quoted(cell: &[u8], into: &mut Vec<u8>) -> Result<(), NoMemory>
    ensures { OnOk result (into.new.items ≡ into.old.items ++ quoted cell.now) }
{
    add_byte(b'"', into)?;
    add_doubled(cell, into)?;
    add_byte(b'"', into)
}

/// Adds a cell, which may be alone in its line or the first of the text.
pub(crate) fn add_csv_cell(
    alone: bool,
    first: bool,
    cell: &[u8],
    into: &mut Vec<u8>,
) -> Result<(), NoMemory>
    ensures { OnOk result (into.new.items ≡ into.old.items ++ csv_cell alone first cell.now) }
{
    if needs_quotes(alone, first, cell) {
        add_quoted(cell, into)
    } else {
        add(cell, into)
    }
}

ghost use Rattle.std.specs.Prelude.{◌≡◌, ◌++◌, flat_map, OnOk};
ghost use Rattle.std.specs.Option.{option_copied};
ghost use Rattle.row_forms.specs.believed.Forms.{dashes, head_end, name_piece, piece, row_end, row_start, tail_text, text_of};
ghost use Rattle.row_forms.specs.Seen.{names_seen};

use crate::adding::{add, add_parting};
use crate::csv_cell::add_csv_cell;
use crate::json_member::add_member;
use crate::markdown_cell::add_markdown_cell;
use crate::row_form::RowForm;
use value_text::NoMemory;

/// A column of a table.
#[derive(Debug, Drop, Clone, Copy)]
pub struct Column<'a> {
    /// Its name.
    pub name: &'a str,
    /// Whether it is the first.
    pub is_first: bool,
    /// Whether there is no other.
    pub is_only: bool,
}

// The text of a cell: an absent one is empty.
fn text_of<'a>(cell: Option<&'a str>) -> &'a [u8]
    ensures { result.now ≡ text_of (option_copied cell.entry) }
{
    match cell {
        Some(text) => text.as_bytes(),
        None => b"",
    }
}

impl RowForm {
    /// Adds what stands in a row for a cell of a column. An absent cell is null in json, and empty elsewhere.
    ///
    /// # Errors
    ///
    /// `NoMemory` where the vector could not grow.
    pub fn add_piece(
        self,
        column: Column<'_>,
        cell: Option<&str>,
        into: &mut Vec<u8>,
    ) -> Result<(), NoMemory>
        ensures { OnOk result (into.new.items ≡ into.old.items
            ++ piece self column.entry.is_first column.entry.is_only column.entry.name.now (option_copied cell.entry)) }
    {
        match self {
            RowForm::Tsv => {
                add_parting(column.is_first, b'\t', into)?;
                add(text_of(cell), into)
            }
            RowForm::Csv => {
                add_parting(column.is_first, b',', into)?;
                add_csv_cell(column.is_only, false, text_of(cell), into)
            }
            RowForm::Json => {
                add_parting(column.is_first, b',', into)?;
                add_member(column.name, cell, into)
            }
            RowForm::Markdown => add_markdown_cell(text_of(cell), into),
        }
    }

    /// What stands before the pieces of a row, which may be the first of the table.
    pub fn row_start(self, first: bool) -> &'static [u8]
        ensures { result.now ≡ row_start self first }
    {
        match self {
            RowForm::Json => { if first { b"\n{" } else { b",\n{" } }
            RowForm::Tsv | RowForm::Csv | RowForm::Markdown => b"",
        }
    }

    /// What stands behind the pieces of a row.
    pub fn row_end(self) -> &'static [u8]
        ensures { result.now ≡ row_end self }
    {
        match self {
            RowForm::Tsv => b"\n",
            RowForm::Csv => b"\r\n",
            RowForm::Json => b"}",
            RowForm::Markdown => b"|\n",
        }
    }

    /// What stands behind the rows.
    pub fn tail(self) -> &'static [u8]
        ensures { result.now ≡ tail_text self }
    {
        match self {
            RowForm::Json => b"\n]\n",
            RowForm::Tsv | RowForm::Csv | RowForm::Markdown => b"",
        }
    }

    // Adds what stands in the head for the name of a column.
    pub(crate) fn add_name_piece(
        self,
        column: Column<'_>,
        into: &mut Vec<u8>,
    ) -> Result<(), NoMemory>
        ensures { OnOk result (into.new.items ≡ into.old.items
            ++ name_piece self column.entry.is_first column.entry.is_only column.entry.name.now) }
    {
        let name = column.name.as_bytes();
        match self {
            RowForm::Tsv => {
                add_parting(column.is_first, b'\t', into)?;
                add(name, into)
            }
            RowForm::Csv => {
                add_parting(column.is_first, b',', into)?;
                add_csv_cell(column.is_only, column.is_first, name, into)
            }
            RowForm::Json => Ok(()),
            RowForm::Markdown => add_markdown_cell(name, into),
        }
    }

    // Adds what stands behind the names in the head.
    pub(crate) fn add_head_end(self, names: &[&str], into: &mut Vec<u8>) -> Result<(), NoMemory>
        ensures { OnOk result (into.new.items ≡ into.old.items ++ head_end self (names_seen names.now)) }
    {
        match self {
            RowForm::Tsv => add(b"\n", into),
            RowForm::Csv => add(b"\r\n", into),
            RowForm::Json => add(b"[", into),
            RowForm::Markdown => {
                add(b"|\n", into)?;
                add_dashes(names, into)?;
                add(b"|\n", into)
            }
        }
    }
}

// Adds a cell of dashes for each column.
fn add_dashes(names: &[&str], into: &mut Vec<u8>) -> Result<(), NoMemory>
    ensures { OnOk result (into.new.items ≡ into.old.items ++ flat_map (λ name. dashes) (names_seen names.now)) }
{
    for _name in names {
        add(b"| --- ", into)?;
    }
    Ok(())
}

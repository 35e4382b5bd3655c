//! The cells of a line of a table, and the column of results among those of its header.
ghost use Rattle.std.specs.Prelude.{◌≡◌, map, position, slice_get, option_and_then, IfOk};
ghost use Rattle.definitions.specs.believed.RowFile.{cells_of_line};
ghost use Rattle.value_text.specs.believed.Texts.{is_same_text};
ghost use Rattle.jeldroft_suspect.specs.believed.Results.{outcome_of, word_in};

use crate::outcome::Outcome;
use row_text::LineCells;
use std::alloc::Global;
use value_text::NoMemory;

/// The cells of a line.
pub(crate) fn cells_of(alloc: Global, line: &[u8]) -> Result<Vec<&[u8]>, NoMemory>
    ensures { IfOk result (λ cells. map (λ cell. cell.now) cells.items ≡ cells_of_line line.now) }
{
    let mut left = LineCells::new(line);
    let mut cells = Vec::new(alloc);
    while let Some(cell) = left.take_cell() {
        cells.push(cell)?;
    }
    Ok(cells)
}

// Whether a cell of a header is a name under the case rule.
fn is_named(name: &[u8], cell: &[u8], fold: bool) -> bool
    ensures { result ≡ is_same_text fold name.now cell.now }
{
    if fold {
        name.eq_ignore_ascii_case(cell)
    } else {
        name == cell
    }
}

// The place of the first of some cells that is a name.
fn place_of(cells: &[&[u8]], name: &[u8], fold: bool) -> Option<usize>
    ensures { result ≡ position (λ cell. is_same_text fold name.now cell.now) cells.now }
{
    cells.iter().position(|cell| is_named(name, cell, fold))
}

/// The column of a header that has this name, the first of such.
pub(crate) fn result_column(
    alloc: Global,
    header: &[u8],
    name: &str,
    fold: bool,
) -> Result<Option<usize>, NoMemory>
    ensures { IfOk result (λ column. column ≡ position (λ cell. is_same_text fold name.now cell) (cells_of_line header.now)) }
{
    let cells = cells_of(alloc, header)?;
    Ok(place_of(cells.as_slice(), name.as_bytes(), fold))
}

// What the word of a cell says, where there is one.
fn outcome_at(cells: &[&[u8]], column: usize) -> Option<Outcome>
    ensures { result ≡ option_and_then outcome_of (slice_get (map (λ cell. cell.now) cells.now) column) }
{
    Outcome::of(cells.get(column)?)
}

/// What became of the test in a line, by its word in the column of results.
pub(crate) fn word_in(
    alloc: Global,
    line: &[u8],
    column: usize,
) -> Result<Option<Outcome>, NoMemory>
    ensures { IfOk result (λ outcome. outcome ≡ word_in column line.now) }
{
    let cells = cells_of(alloc, line)?;
    Ok(outcome_at(cells.as_slice(), column))
}

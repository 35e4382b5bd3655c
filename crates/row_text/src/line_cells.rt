ghost use Rattle.std.specs.Prelude.{◌≡◌, [], ◌∷◌, ◌==◌, position, MatchOption};
ghost use Rattle.definitions.specs.believed.RowFile.{cells_of_line};

use crate::cuts::without_spaces;
use std::marker::Model;

/// The cells of a line that are still to be read, each without the spaces at its ends.
#[derive(Drop)]
pub struct LineCells<'a> {
    rest: Option<&'a [u8]>,
}

impl<'a> Model for LineCells<'a> {
    ghost use Rattle.std.specs.Prelude.{List, ℕ, []};
    ghost use Rattle.std.specs.Option.{option_map_or};
    ghost use Rattle.definitions.specs.believed.RowFile.{cells_of_line};

    ghost Value = { List (List ℕ) };

    ghost view = { λ cells. option_map_or (λ text. cells_of_line text.now) cells.rest [] };
}

/// The place of the first tab.
fn cell_end(line: &[u8]) -> Option<usize>
    ensures { result ≡ position (λ byte. byte == 9) line.now }
{
    line.iter().position(|byte| *byte == b'\t')
}

/// The first cell of a line, and what stands behind its tab.
fn cut_cell(line: &[u8]) -> (&[u8], Option<&[u8]>)
    ensures { MatchOption result.1 (cells_of_line line.now ≡ result.0.now ∷ [])
        (λ rest. cells_of_line line.now ≡ result.0.now ∷ cells_of_line rest.now) }
{
    match cell_end(line) {
        Some(end) => (without_spaces(&line[..end]), Some(&line[end + 1..])),
        None => (without_spaces(line), None),
    }
}

impl<'a> LineCells<'a> {
    /// The cells of a line.
    pub fn new(line: &'a [u8]) -> LineCells<'a>
        ensures { result ≡ cells_of_line line.now }
    {
        LineCells { rest: Some(line) }
    }

    /// Takes the next cell; `None` exactly where there is none. Takes no memory.
    pub fn take_cell(&mut self) -> Option<&'a [u8]>
        ensures { MatchOption result (self.old ≡ []) (λ cell. self.old ≡ cell.now ∷ self.new) }
    {
        let (cell, rest) = cut_cell(self.rest?);
        self.rest = rest;
        Some(cell)
    }
}

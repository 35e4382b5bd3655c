ghost use Rattle.std.specs.Prelude.{◌≡◌, ◌≤◌, ◌^◌, ◌++◌, ◌∷◌, ℕ, List, [], length, MatchOption, OnErr, OnOk};
ghost use Rattle.comma_rows.specs.believed.Positions.{first_place};
ghost use Rattle.comma_rows.specs.believed.Reading.{begins_with_feed, comma_cells, read};
ghost use Rattle.comma_rows.specs.Taking.{Cuts, HasRoom, Takes};

use crate::action::{Action, Place, action_of};
use crate::comma_fault::{CommaCause, CommaError, CommaFault};
use crate::position::Position;
use model_lex::without_mark;
use std::marker::Model;
use value_text::NoMemory;

/// A cell of a table.
#[derive(Debug, Drop, Clone, Copy, PartialEq, Eq)]
pub struct CommaCell {
    /// Where it begins: at its first byte or its quote, or at what ends it.
    pub at: Position,
    /// Whether it is the last of its row.
    pub ends_row: bool,
}

/// The cells of a table that are still to be read.
#[derive(Drop)]
pub struct CommaCells<'a> {
    place: Place,
    at: Position,
    rest: &'a [u8],
}

impl<'a> Model for CommaCells<'a> {
    ghost use Rattle.std.specs.Prelude.{[]};
    ghost use Rattle.comma_rows.specs.believed.Reading.{Reading, read};
    ghost use Rattle.comma_rows.specs.Taking.{HasRoom};

    ghost Value = { Reading };

    ghost view = { λ cells. read cells.place cells.at cells.at [] cells.rest.now };

    ghost invariant = { λ cells. HasRoom cells.at cells.rest.now };
}

// A cell that was cut off a text, and what stands behind it.
#[derive(Drop)]
struct Cut<'a> {
    cell: CommaCell,
    place: Place,
    at: Position,
    rest: &'a [u8],
}

// Adds a byte to a text.
fn add_byte(byte: u8, text: &mut Vec<u8>) -> Result<(), NoMemory>
    ensures { OnOk result (text.new.items ≡ text.old.items ++ byte ∷ []) }
{
    text.push(byte)?;
    Ok(())
}

// The first byte, and what stands behind it.
fn cut_byte(bytes: &[u8]) -> Option<(u8, &[u8])>
    ensures { MatchOption result (bytes.now ≡ []) (λ cut. bytes.now ≡ cut.0 ∷ cut.1.now) }
{
    let (byte, behind) = bytes.split_first()?;
    Some((*byte, behind))
}

// Whether bytes begin with a line feed.
fn begins_with_feed(bytes: &[u8]) -> bool
    ensures { result ≡ begins_with_feed bytes.now }
{
    match bytes {
        [first, ..] => *first == b'\n',
        [] => false,
    }
}

// What the end of the text does with a cell that began there.
fn cut_at_end<'a>(
    place: Place,
    begun: Position,
    at: Position,
    rest: &'a [u8],
) -> Result<Option<Cut<'a>>, CommaError>
    requires end { rest.now ≡ [] }
    requires room { HasRoom at rest.now }
    ensures { (text : List ℕ) → Cuts result (read place begun at text rest.now) text }
{
    match place {
        Place::LineStart => Ok(None),
        Place::InQuotes => Err(CommaError::Fault(CommaFault {
            at: begun,
            cause: CommaCause::OpenQuote,
        })),
        Place::CellStart | Place::InText | Place::AfterQuote => Ok(Some(Cut {
            cell: CommaCell {
                at: begun,
                ends_row: true,
            },
            place: Place::LineStart,
            at,
            rest,
        })),
    }
}

// Cuts the first cell off a text, and puts its text behind nothing.
fn cut_cell<'a>(
    start: Place,
    from: Position,
    bytes: &'a [u8],
    text: &mut Vec<u8>,
) -> Result<Option<Cut<'a>>, CommaError>
    requires room { HasRoom from bytes.now }
    requires empty { text.old.items ≡ [] }
    ensures { Cuts result (read start from from [] bytes.now) text.new.items }
{
    let mut place = start;
    let mut begun = from;
    let mut at = from;
    let mut rest = bytes;
    while let Some((byte, behind)) = cut_byte(rest) {
        let after = at.next(byte);
        match action_of(place, byte, begins_with_feed(behind)) {
            Action::Skips => {
                place = Place::LineStart;
                begun = after;
            }
            Action::Passes(next) => place = next,
            Action::Adds(next) => {
                add_byte(byte, text)?;
                place = next;
            }
            Action::EndsCell => {
                return Ok(Some(Cut {
                    cell: CommaCell {
                        at: begun,
                        ends_row: false,
                    },
                    place: Place::CellStart,
                    at: after,
                    rest: behind,
                }));
            }
            Action::EndsRow => {
                return Ok(Some(Cut {
                    cell: CommaCell {
                        at: begun,
                        ends_row: true,
                    },
                    place: Place::LineStart,
                    at: after,
                    rest: behind,
                }));
            }
            Action::Stops(cause) => return Err(CommaError::Fault(CommaFault { at, cause })),
        }
        at = after;
        rest = behind;
    }
    cut_at_end(place, begun, at, rest)
}

impl<'a> CommaCells<'a> {
    /// The cells of a text of comma-separated values (RFC 4180), of at most 2^28 bytes. A byte-order mark at its start
    /// is skipped. Takes no memory.
    pub fn new(bytes: &'a [u8]) -> CommaCells<'a>
        requires { length bytes.now ≤ 2 ^ 28 }
        ensures { result ≡ comma_cells bytes.now }
    {
        CommaCells {
            place: Place::LineStart,
            at: Position { line: 1, column: 1 },
            rest: without_mark(bytes),
        }
    }

    /// The same cells, to be read once more. Takes no memory.
    pub fn again(&self) -> CommaCells<'a>
        ensures { result ≡ self.now }
    {
        CommaCells {
            place: self.place,
            at: self.at,
            rest: self.rest,
        }
    }

    /// Takes the next cell, and puts its text in the place of what `text` holds; `None` exactly where no cell is left.
    /// After an error the cells are as before.
    ///
    /// # Errors
    ///
    /// `Fault` where RFC 4180 doesn't allow what stands in the cell or behind it: with the place and the cause of the
    /// text's first fault. `NoMemory` where the text could not grow.
    pub fn take_cell(&mut self, text: &mut Vec<u8>) -> Result<Option<CommaCell>, CommaError>
        ensures takes { Takes result self.old self.new text.new.items }
        ensures err { OnErr result (self.new ≡ self.old) }
    {
        text.clear();
        let Some(cut) = cut_cell(self.place, self.at, self.rest, text)? else {
            return Ok(None);
        };
        self.place = cut.place;
        self.at = cut.at;
        self.rest = cut.rest;
        Ok(Some(cut.cell))
    }
}

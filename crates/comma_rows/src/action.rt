ghost use Rattle.std.specs.Prelude.{◌≡◌};
ghost use Rattle.comma_rows.specs.believed.Actions.{action_of, ends_line, passes_return, opens_quotes, adds_text, outside_quotes};

use crate::comma_fault::CommaCause;

/// Where a byte stands in a table.
#[derive(Debug, Drop, Clone, Copy, PartialEq, Eq)]
pub enum Place {
    /// At the start of a line.
    LineStart,
    /// Behind a comma.
    CellStart,
    /// In a cell without quotes, behind its first byte.
    InText,
    /// Between quotes.
    InQuotes,
    /// Behind a quote between quotes: it ends the cell, or is the first of two.
    AfterQuote,
}

/// What a byte does.
#[derive(Debug, Drop, Clone, Copy, PartialEq, Eq)]
pub enum Action {
    /// It is part of a line without a cell.
    Skips,
    /// It is no part of the cell's text, and the next byte stands there.
    Passes(Place),
    /// It is part of the cell's text, and the next byte stands there.
    Adds(Place),
    /// It ends the cell, and the next one is of the same row.
    EndsCell,
    /// It ends the cell and the row.
    EndsRow,
    /// It may not stand here.
    Stops(CommaCause),
}

// What a line feed does outside of quotes.
fn ends_line(place: Place) -> Action
    ensures { result ≡ ends_line place }
{
    match place {
        Place::LineStart => Action::Skips,
        Place::CellStart | Place::InText | Place::InQuotes | Place::AfterQuote => Action::EndsRow,
    }
}

// What a carriage return before a line feed does outside of quotes.
fn passes_return(place: Place) -> Action
    ensures { result ≡ passes_return place }
{
    match place {
        Place::LineStart => Action::Skips,
        Place::CellStart => Action::Passes(Place::CellStart),
        Place::InText => Action::Passes(Place::InText),
        Place::InQuotes => Action::Passes(Place::InQuotes),
        Place::AfterQuote => Action::Passes(Place::AfterQuote),
    }
}

// What a quote does outside of quotes.
fn opens_quotes(place: Place) -> Action
    ensures { result ≡ opens_quotes place }
{
    match place {
        Place::LineStart | Place::CellStart => Action::Passes(Place::InQuotes),
        Place::InText | Place::InQuotes | Place::AfterQuote => Action::Stops(
            CommaCause::QuoteInText,
        ),
    }
}

// What another byte does outside of quotes.
fn adds_text(place: Place) -> Action
    ensures { result ≡ adds_text place }
{
    match place {
        Place::LineStart | Place::CellStart | Place::InText => Action::Adds(Place::InText),
        Place::InQuotes | Place::AfterQuote => Action::Stops(CommaCause::TextAfterQuote),
    }
}

// What a byte does outside of quotes.
fn outside_quotes(place: Place, byte: u8, before_feed: bool) -> Action
    ensures { result ≡ outside_quotes place byte before_feed }
{
    if byte == b',' {
        Action::EndsCell
    } else if byte == b'\n' {
        ends_line(place)
    } else if byte == b'\r' {
        if before_feed {
            passes_return(place)
        } else {
            Action::Stops(CommaCause::LoneReturn)
        }
    } else if byte == b'"' {
        opens_quotes(place)
    } else {
        adds_text(place)
    }
}

/// What a byte does where it stands. `before_feed` tells whether the next byte is a line feed.
pub(crate) fn action_of(place: Place, byte: u8, before_feed: bool) -> Action
    ensures { result ≡ action_of place byte before_feed }
{
    match place {
        Place::InQuotes => {
            if byte == b'"' {
                Action::Passes(Place::AfterQuote)
            } else {
                Action::Adds(Place::InQuotes)
            }
        }
        Place::AfterQuote => {
            if byte == b'"' {
                Action::Adds(Place::InQuotes)
            } else {
                outside_quotes(Place::AfterQuote, byte, before_feed)
            }
        }
        Place::LineStart => outside_quotes(Place::LineStart, byte, before_feed),
        Place::CellStart => outside_quotes(Place::CellStart, byte, before_feed),
        Place::InText => outside_quotes(Place::InText, byte, before_feed),
    }
}

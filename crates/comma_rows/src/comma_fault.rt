ghost use Rattle.std.specs.Prelude.{◌≡◌};

use crate::position::Position;
use value_text::NoMemory;

/// What RFC 4180 doesn't allow.
#[derive(Debug, Drop, Clone, Copy, PartialEq, Eq)]
pub enum CommaCause {
    /// The text ends between quotes. The place is that of the quote that is open.
    OpenQuote,
    /// A byte stands behind the quote that ends a cell, and is no comma and no end of a line.
    TextAfterQuote,
    /// A quote stands in a cell that doesn't begin with one.
    QuoteInText,
    /// A carriage return stands outside of quotes, and no line feed follows.
    LoneReturn,
}

/// Why a text is no table of comma-separated values, and where.
#[derive(Debug, Drop, Clone, Copy, PartialEq, Eq)]
pub struct CommaFault {
    /// The place of the byte that may not stand there.
    pub at: Position,
    /// Why it may not.
    pub cause: CommaCause,
}

/// Why no cell was read.
#[derive(Debug, Drop, Clone, Copy, PartialEq, Eq)]
pub enum CommaError {
    /// The text is no table.
    Fault(CommaFault),
    /// Memory was refused.
    NoMemory,
}

impl From<NoMemory> for CommaError {
    ghost use Rattle.comma_rows.specs.declared.comma_fault.CommaError.TheVariants as errors;

    ghost from_gives = { λ _ error. error ≡ errors.NoMemory };

    fn from(_refused: NoMemory) -> CommaError {
        CommaError::NoMemory
    }
}

ghost use Rattle.std.specs.Prelude.{◌≡◌};

use row_text::RowsFault;
use value_text::NoMemory;

/// Why a file of results is refused (this project's rules).
#[derive(Debug, Drop, Clone, Copy, PartialEq, Eq)]
pub enum ResultsFault {
    /// It is refused as a row file. Want of memory isn't among these faults.
    Rows(RowsFault),
    /// No cell of its header is `:result`.
    NoResult,
    /// The cell of this line in the result column, the first of such, is neither `pass` nor `fail`.
    BadResult(u32),
    /// Memory was refused.
    NoMemory,
}

impl From<NoMemory> for ResultsFault {
    ghost use Rattle.suspect_tuples.specs.declared.results_fault.ResultsFault.TheVariants as faults;

    ghost from_gives = { λ _ fault. fault ≡ faults.NoMemory };

    fn from(_refused: NoMemory) -> ResultsFault {
        ResultsFault::NoMemory
    }
}

impl From<RowsFault> for ResultsFault {
    ghost use Rattle.suspect_tuples.specs.Results.{refused_as};

    ghost from_gives = { λ fault given. given ≡ refused_as fault };

    fn from(fault: RowsFault) -> ResultsFault {
        match fault {
            RowsFault::NoMemory => ResultsFault::NoMemory,
            RowsFault::NoHeader => ResultsFault::Rows(RowsFault::NoHeader),
            RowsFault::Twice(line) => ResultsFault::Rows(RowsFault::Twice(line)),
            RowsFault::Missing(param) => ResultsFault::Rows(RowsFault::Missing(param)),
            RowsFault::TooManyRows(count) => ResultsFault::Rows(RowsFault::TooManyRows(count)),
            RowsFault::Width(line) => ResultsFault::Rows(RowsFault::Width(line)),
        }
    }
}

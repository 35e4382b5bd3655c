ghost use Rattle.std.specs.Prelude.{◌≡◌};

use cov_model::ParamNo;
use value_text::NoMemory;

/// Why a row file is refused (this project's rules).
#[derive(Debug, Drop, Clone, Copy, PartialEq, Eq)]
pub enum RowsFault {
    /// No line has a byte, so there is no header.
    NoHeader,
    /// On this line, the header's, a parameter has two columns.
    Twice(u32),
    /// A suite has no column for this parameter, the least of such.
    Missing(ParamNo),
    /// So many rows follow the header, more than 2^20.
    TooManyRows(u64),
    /// This line has more cells than the header, the first of such.
    Width(u32),
    /// Memory was refused.
    NoMemory,
}

impl From<NoMemory> for RowsFault {
    ghost use Rattle.row_text.specs.declared.rows_fault.RowsFault.TheVariants as faults;

    ghost from_gives = { λ _ fault. fault ≡ faults.NoMemory };

    fn from(_refused: NoMemory) -> RowsFault {
        RowsFault::NoMemory
    }
}

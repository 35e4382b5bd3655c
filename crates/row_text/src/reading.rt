ghost use Rattle.std.specs.Prelude.{◌≡◌, ◌≤◌, ◌^◌, ℕ, List, ◌∷◌, length, IfOk};
ghost use Rattle.definitions.specs.believed.RowFile.{filled_lines};
ghost use Rattle.definitions.specs.believed.RowReading.{read_numbered, read_rows};
ghost use Rattle.row_text.specs.Readings.{IsFileOf, Reads, mode_seen};
ghost use Rattle.row_text.specs.RowLines.{line_seen};

use crate::file_rows::{check_lines, read_lines};
use crate::filled_lines::{FilledLine, FilledLines};
use crate::header::{check_columns, read_header};
use crate::model_names::ModelNames;
use crate::row_file::{RowFile, RowMode};
use crate::rows_fault::RowsFault;
use cov_model::TestModel;
use std::alloc::Global;

/// What a header's line and the lines under it hold.
///
/// # Errors
///
/// As `read_rows`, but for `NoHeader`.
fn read_under(
    alloc: Global,
    names: &mut ModelNames<'_>,
    mode: RowMode,
    first: FilledLine<'_>,
    lines: FilledLines<'_>,
) -> Result<RowFile, RowsFault>
    ensures reads { Reads (read_numbered names.old (mode_seen mode) (line_seen first.entry ∷ lines.entry)) result }
    ensures file { IfOk result (λ file. (bytes : List ℕ) → filled_lines bytes ≡ line_seen first.entry ∷ lines.entry → IsFileOf names.old file) }
{
    let header = read_header(alloc, names, first)?;
    let columns = header.columns.as_slice();
    check_columns(alloc, mode, first.number, columns, names.param_count())?;
    check_lines(&lines, columns.len())?;
    let file = read_lines(alloc, names, header, lines)?;
    Ok(file)
}

/// The partial rows of a row file, each with its line, and notes on what was dropped (PICT's guide for seed files;
/// the faults are this project's rules). The first line with a byte is the header, whose cells name parameters;
/// each further one is a row, whose cells are printed names of values. Cells are parted by tabs, and spaces at
/// their ends don't count. The file may have at most 2^28 bytes.
///
/// # Errors
///
/// The first of these: `NoHeader` where no line has a byte; `Twice` with the header's line where a parameter has two
/// columns; `Missing` in the mode of suites with the least parameter that has none; `TooManyRows` with their number
/// where there are more than 2^20 rows; `Width` with the first line that has more cells than the header. `NoMemory`
/// where memory was refused.
pub fn read_rows(
    alloc: Global,
    bytes: &[u8],
    model: &TestModel,
    mode: RowMode,
) -> Result<RowFile, RowsFault>
    requires { length bytes.now ≤ 2 ^ 28 }
    ensures reads { Reads (read_rows model.now (mode_seen mode) bytes.now) result }
    ensures file { IfOk result (IsFileOf model.now) }
{
    let mut lines = FilledLines::new(bytes);
    let Some(first) = lines.take_line() else {
        return Err(RowsFault::NoHeader);
    };
    let mut names = ModelNames::new(alloc, model)?;
    read_under(alloc, &mut names, mode, first, lines)
}

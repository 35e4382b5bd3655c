ghost use Rattle.std.specs.Prelude.{◌≡◌, ◌++◌, ◌∷◌, [], ◌<◌, ◌^◌, ◌==◌, ℕ, List, if◌then◌else◌, is_none, false, map, length, count_by, nat_eq, nat_lt, position, All, IfOk, IfSome, OnOk};
ghost use Rattle.std.specs.List.{list_any, range_with_len};
ghost use Rattle.std.specs.Option.{option_map_or, option_or};
ghost use Rattle.cov_model.specs.believed.Sound.{ModelView};
ghost use Rattle.cov_model.specs.believed.Valid.{param_numbers};
ghost use Rattle.definitions.specs.believed.RowFile.{cells_of_line, named_param};
ghost use Rattle.definitions.specs.believed.RowReading.{UnknownColumn, column_notes, column_count, twice_fault, missing_fault};
ghost use Rattle.row_text.specs.Readings.{mode_seen};
ghost use Rattle.row_text.specs.believed.Readings.{note_told};
ghost use Rattle.row_text.specs.RowLines.{Finds};

use crate::filled_lines::FilledLine;
use crate::line_cells::LineCells;
use crate::model_names::ModelNames;
use crate::row_file::RowMode;
use crate::rows_fault::RowsFault;
use cov_model::ParamNo;
use model_lex::{Note, NoteCode, NoteList};
use std::alloc::Global;
use value_text::{NoMemory, OwnedList};

/// What the header of a row file says.
#[derive(Drop)]
pub(crate) struct Header {
    /// The parameter of each column, where its cell names one.
    pub columns: OwnedList<Option<ParamNo>>,
    /// A note for each column whose cell names none.
    pub notes: NoteList,
}

impl Header {
    /// Adds a column on a line.
    fn push(&mut self, line: u32, column: Option<ParamNo>) -> Result<(), NoMemory>
        ensures columns { OnOk result (self.new.columns ≡ self.old.columns ++ column ∷ []) }
        ensures notes { OnOk result (self.new.notes ≡ self.old.notes ++ (if is_none column then note_told (line, UnknownColumn) ∷ [] else [])) }
    {
        self.columns.push(column)?;
        match column {
            Some(_) => Ok(()),
            None => self.notes.push(Note {
                line,
                code: NoteCode::UnknownColumn,
            }),
        }
    }
}

/// What the line of a header says.
///
/// # Errors
///
/// `NoMemory` where memory was refused.
pub(crate) fn read_header(
    alloc: Global,
    names: &mut ModelNames<'_>,
    line: FilledLine<'_>,
) -> Result<Header, NoMemory>
    ensures columns { IfOk result (λ header. header.columns ≡ map (named_param names.old) (cells_of_line line.entry.text.now)) }
    ensures notes { IfOk result (λ header. header.notes ≡ map note_told (column_notes names.old line.entry.number (cells_of_line line.entry.text.now))) }
    ensures within { IfOk result (λ header. All (λ column. IfSome column (λ p. p < length names.old.params)) header.columns) }
    ensures same { names.new ≡ names.old }
{
    let mut header = Header {
        columns: OwnedList::new(alloc),
        notes: OwnedList::new(alloc),
    };
    let mut cells = LineCells::new(line.text);
    while let Some(cell) = cells.take_cell() {
        let column = names.param(cell)?;
        header.push(line.number, column)?;
    }
    Ok(header)
}

/// How many columns each of so many parameters has.
fn column_counts(
    alloc: Global,
    columns: &[Option<ParamNo>],
    params: usize,
) -> Result<Vec<usize>, NoMemory>
    requires { All (λ column. IfSome column (λ p. p < params)) columns.now }
    ensures { IfOk result (λ counts. counts.items
        ≡ map (λ p. count_by (λ column. option_map_or (λ q. nat_eq q p) column false) columns.now) (range_with_len 0 params)) }
{
    let mut counts = vec![in alloc; 0usize; params]?;
    for column in columns {
        if let Some(p) = column {
            counts[*p as usize] += 1;
        }
    }
    Ok(counts)
}

/// Whether a parameter has two columns or more.
fn is_twice(counts: &[usize]) -> bool
    ensures { result ≡ list_any (λ count. nat_lt 1 count) counts.now }
{
    counts.iter().any(|count| *count > 1)
}

/// The first parameter without a column.
fn first_missing(counts: &[usize]) -> Option<usize>
    ensures { result ≡ position (λ count. count == 0) counts.now }
{
    counts.iter().position(|count| *count == 0)
}

/// Looks in a suite for a parameter without a column.
fn check_missing(mode: RowMode, counts: &[usize]) -> Result<(), RowsFault>
    requires { length counts.now < 2 ^ 16 }
    ensures { (m : ModelView) (header : List (List ℕ)) → counts.now ≡ map (column_count m header) (param_numbers m)
        → Finds (missing_fault m (mode_seen mode) header) result }
{
    match mode {
        RowMode::Seed => Ok(()),
        RowMode::Suite => match first_missing(counts) {
            Some(p) => Err(RowsFault::Missing(p as ParamNo)),
            None => Ok(()),
        },
    }
}

/// Looks for a parameter with two columns, and in a suite for one without a column.
///
/// # Errors
///
/// `Twice` with the header's line, then `Missing` with the least such parameter. `NoMemory` where memory was
/// refused.
pub(crate) fn check_columns(
    alloc: Global,
    mode: RowMode,
    line: u32,
    columns: &[Option<ParamNo>],
    params: usize,
) -> Result<(), RowsFault>
    requires within { All (λ column. IfSome column (λ p. p < params)) columns.now }
    requires few { params < 2 ^ 16 }
    ensures { (m : ModelView) (header : List (List ℕ)) → length m.params ≡ params → columns.now ≡ map (named_param m) header
        → Finds (option_or (twice_fault m line header) (missing_fault m (mode_seen mode) header)) result }
{
    let counts = column_counts(alloc, columns, params)?;
    if is_twice(counts.as_slice()) {
        return Err(RowsFault::Twice(line));
    }
    check_missing(mode, counts.as_slice())
}

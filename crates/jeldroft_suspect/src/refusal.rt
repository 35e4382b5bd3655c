//! In which words it is told that the results of a table are refused: what was found, and what could stand there.
ghost use Rattle.std.specs.Prelude.{◌≤◌, ◌^◌, length};

use crate::cells::{cells_of, result_column};
use jeldroft_words::Shown;
use row_text::FilledLines;
use std::alloc::Global;
use suspect_tuples::ResultsFault;
use value_text::NoMemory;

// The names of the columns of a header.
fn names_in(alloc: Global, header: &[u8]) -> Result<String, NoMemory> {
    let cells = cells_of(alloc, header)?;
    let mut names = String::new(alloc);
    for cell in cells.as_slice() {
        if !names.is_empty() {
            names.push_str(", ")?;
        }
        let shown = Shown::of(cell);
        names.push_str(shown.text())?;
        names.push_str(shown.end())?;
    }
    Ok(names)
}

// The words where no column has the name.
fn no_column(alloc: Global, bytes: &[u8], name: &str) -> Result<Option<String>, NoMemory>
    requires { length bytes.now ≤ 2 ^ 28 }
{
    let mut lines = FilledLines::new(bytes);
    let Some(header) = lines.take_line() else {
        return Ok(None);
    };
    let names = names_in(alloc, header.text)?;
    let shown = Shown::of(name.as_bytes());
    let (line, text, end) = (header.number, shown.text(), shown.end());
    let words = format!(in alloc;
        ":{line}: error: no column is named \"{text}{end}\"; the columns are {names} [F5]\n"
    )?;
    Ok(Some(words))
}

// The text of the line of a number.
fn text_at<'a>(lines: &mut FilledLines<'a>, number: u32) -> Option<&'a [u8]> {
    for _ in 0..number {
        let line = lines.take_line()?;
        if line.number == number {
            return Some(line.text);
        }
    }
    None
}

// The words where a cell in the column of results is no word for one.
fn no_word(alloc: Global, line: u32, name: &str, cell: &[u8]) -> Result<String, NoMemory> {
    let column = Shown::of(name.as_bytes());
    let (name, rest) = (column.text(), column.end());
    let expected = "expected pass, passed, ok, fail, failed, skip or skipped [F6]";
    if cell.is_empty() {
        return Ok(format!(in alloc;
            ":{line}: error: column {name}{rest}: the cell is empty; {expected}\n"
        )?);
    }
    let shown = Shown::of(cell);
    let (text, end) = (shown.text(), shown.end());
    Ok(format!(in alloc;
        ":{line}: error: column {name}{rest}: \"{text}{end}\" is no result; {expected}\n"
    )?)
}

// The cell at a place, empty where there is none.
fn cell_at<'a>(cells: &[&'a [u8]], place: usize) -> &'a [u8] {
    match cells.get(place) {
        Some(cell) => cell,
        None => &[],
    }
}

// The words where a line has no word in the column of results.
fn wordless(
    alloc: Global,
    bytes: &[u8],
    name: &str,
    fold: bool,
    line: u32,
) -> Result<Option<String>, NoMemory>
    requires { length bytes.now ≤ 2 ^ 28 }
{
    let mut lines = FilledLines::new(bytes);
    let Some(header) = lines.take_line() else {
        return Ok(None);
    };
    let Some(column) = result_column(alloc, header.text, name, fold)? else {
        return Ok(None);
    };
    let Some(text) = text_at(&mut lines, line) else {
        return Ok(None);
    };
    let cells = cells_of(alloc, text)?;
    let words = no_word(alloc, line, name, cell_at(cells.as_slice(), column))?;
    Ok(Some(words))
}

// The words for a fault, where it is one of the results.
fn words_of(
    alloc: Global,
    bytes: &[u8],
    name: &str,
    fold: bool,
    fault: &ResultsFault,
) -> Result<Option<String>, NoMemory>
    requires { length bytes.now ≤ 2 ^ 28 }
{
    match fault {
        ResultsFault::NoResult => no_column(alloc, bytes, name),
        ResultsFault::BadResult(line) => wordless(alloc, bytes, name, fold, *line),
        ResultsFault::Rows(_) | ResultsFault::NoMemory => Ok(None),
    }
}

/// What stands behind the name of a table in the line that says why its results in the column of this name are refused;
/// nothing where another thing is wrong with it, or memory is refused. The table may have at most 2^28 bytes.
pub(crate) fn refusal_of(
    alloc: Global,
    bytes: &[u8],
    name: &str,
    fold: bool,
    fault: &ResultsFault,
) -> Option<String>
    requires { length bytes.now ≤ 2 ^ 28 }
{
    match words_of(alloc, bytes, name, fold, fault) {
        Ok(words) => words,
        Err(NoMemory) => None,
    }
}

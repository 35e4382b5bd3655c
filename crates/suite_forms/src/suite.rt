ghost use Rattle.std.specs.Prelude.{◌≡◌, ◌≢◌, ◌++◌, ◌+◌, ◌<◌, ◌==◌, ℕ, true, [], length, take, map, All, slice_index_or, IfOk, OnOk};
ghost use Rattle.cov_model.specs.Fits.{FitsModel};
ghost use Rattle.row_forms.specs.Seen.{names_seen};
ghost use Rattle.row_forms.specs.believed.Tables.{is_single, pieces as row_pieces, row_text, rows_text};
ghost use Rattle.row_text.specs.Turns.{AreTurns, IsFor, first_turns, turns_at};
ghost use Rattle.suite_forms.specs.Pieces.{ArePiecesOf, cell_piece};
ghost use Rattle.suite_forms.specs.believed.Suites.{param_names, spelled, spelled_row, spelled_rows, suite_text};

use crate::cell_pieces::CellPieces;
use crate::name_turns::NameTurns;
use cov_model::{Rows, TestModel};
use row_forms::RowForm;
use std::alloc::Global;
use value_text::NoMemory;

/// The names of the parameters.
fn param_names(alloc: Global, model: &TestModel) -> Result<Vec<&str>, NoMemory>
    ensures { IfOk result (λ names. names_seen names.items ≡ param_names model.now) }
{
    let mut names = Vec::new(alloc);
    for param in model.params().as_slice() {
        names.push(param.name.as_str())?;
    }
    Ok(names)
}

/// What stands for the cell of a parameter in a row: the name of its value whose turn it is.
fn cell_bytes<'a>(
    pieces: &'a CellPieces,
    model: &TestModel,
    rows: &Rows,
    at: usize,
    place: usize,
    turns: &mut NameTurns,
) -> &'a [u8]
    requires pieces { ArePiecesOf model.now pieces.now }
    requires rows { All (λ row. FitsModel model.now row) rows.now }
    requires at { at < length rows.now }
    requires place { place < length model.now.params }
    requires shape { IsFor model.now turns.old }
    requires next { AreTurns model.now (take at rows.now) place (turns_at turns.old place) }
    ensures text { result.now ≡ cell_piece pieces.now.form model.now place (spelled model.now (take at rows.now) (slice_index_or rows.now at []) place) }
    ensures next { AreTurns model.now (take (at + 1) rows.now) place (turns_at turns.new place) }
    ensures others { (q : ℕ) → q ≢ place → turns_at turns.new q ≡ turns_at turns.old q }
    ensures shape { IsFor model.now turns.new }
{
    match rows.row(at)[place] {
        None => pieces.absent(model, place),
        Some(value) => {
            let names = pieces.names(model, place, value as usize);
            let shown = turns.take(place, value as usize, names.len());
            names[shown].as_slice()
        }
    }
}

/// Adds the cells of a row.
fn add_cells(
    pieces: &CellPieces,
    model: &TestModel,
    rows: &Rows,
    at: usize,
    turns: &mut NameTurns,
    into: &mut Vec<u8>,
) -> Result<(), NoMemory>
    requires pieces { ArePiecesOf model.now pieces.now }
    requires rows { All (λ row. FitsModel model.now row) rows.now }
    requires at { at < length rows.now }
    requires shape { IsFor model.now turns.old }
    requires next { (p : ℕ) → p < length model.now.params → AreTurns model.now (take at rows.now) p (turns_at turns.old p) }
    ensures text { OnOk result (into.new.items ≡ into.old.items
        ++ row_pieces pieces.now.form true (is_single (param_names model.now)) (param_names model.now) (spelled_row model.now (take at rows.now) (slice_index_or rows.now at []))) }
    ensures next { OnOk result ((p : ℕ) → p < length model.now.params → AreTurns model.now (take (at + 1) rows.now) p (turns_at turns.new p)) }
    ensures shape { IsFor model.now turns.new }
{
    for place in 0..model.params().len() {
        let bytes = cell_bytes(pieces, model, rows, at, place, turns);
        into.extend_from_slice(bytes)?;
    }
    Ok(())
}

/// Adds a row.
fn add_row(
    pieces: &CellPieces,
    model: &TestModel,
    rows: &Rows,
    at: usize,
    turns: &mut NameTurns,
    into: &mut Vec<u8>,
) -> Result<(), NoMemory>
    requires pieces { ArePiecesOf model.now pieces.now }
    requires rows { All (λ row. FitsModel model.now row) rows.now }
    requires at { at < length rows.now }
    requires shape { IsFor model.now turns.old }
    requires next { (p : ℕ) → p < length model.now.params → AreTurns model.now (take at rows.now) p (turns_at turns.old p) }
    ensures text { OnOk result (into.new.items ≡ into.old.items
        ++ row_text pieces.now.form (param_names model.now) (at == 0) (spelled_row model.now (take at rows.now) (slice_index_or rows.now at []))) }
    ensures next { OnOk result ((p : ℕ) → p < length model.now.params → AreTurns model.now (take (at + 1) rows.now) p (turns_at turns.new p)) }
    ensures shape { IsFor model.now turns.new }
{
    into.extend_from_slice(pieces.form.row_start(at == 0))?;
    add_cells(pieces, model, rows, at, turns, into)?;
    into.extend_from_slice(pieces.form.row_end())?;
    Ok(())
}

/// Adds all rows.
fn add_rows(
    pieces: &CellPieces,
    model: &TestModel,
    rows: &Rows,
    turns: &mut NameTurns,
    into: &mut Vec<u8>,
) -> Result<(), NoMemory>
    requires pieces { ArePiecesOf model.now pieces.now }
    requires rows { All (λ row. FitsModel model.now row) rows.now }
    requires turns { turns.old ≡ first_turns model.now }
    ensures { OnOk result (into.new.items ≡ into.old.items
        ++ rows_text pieces.now.form (param_names model.now) true (spelled_rows model.now [] rows.now)) }
{
    for at in 0..rows.len() {
        add_row(pieces, model, rows, at, turns, into)?;
    }
    Ok(())
}

/// The text of a suite in a form of tables: a column for each parameter, and a row for each of the rows, which may
/// lack values. A cell has a name of the value; the names of a value take turns, and begin with the first.
///
/// # Errors
///
/// `NoMemory` where memory was refused.
pub fn suite_text(
    alloc: Global,
    form: RowForm,
    model: &TestModel,
    rows: &Rows,
) -> Result<Vec<u8>, NoMemory>
    requires { All (λ row. FitsModel model.now row) rows.now }
    ensures { IfOk result (λ text. text.items ≡ suite_text form model.now rows.now) }
{
    let names = param_names(alloc, model)?;
    let pieces = CellPieces::new(alloc, form, model)?;
    let mut turns = NameTurns::new(alloc, model)?;
    let mut text = Vec::new(alloc);
    form.add_head(names.as_slice(), &mut text)?;
    add_rows(&pieces, model, rows, &mut turns, &mut text)?;
    text.extend_from_slice(form.tail())?;
    Ok(text)
}

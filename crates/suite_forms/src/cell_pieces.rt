ghost use Rattle.std.specs.Prelude.{◌≡◌, ◌<◌, ◌==◌, map, length, Some, None, IfOk, if◌then◌else◌, ◌∷◌, [], ◌++◌};
ghost use Rattle.std.specs.String.{string_bytes};
ghost use Rattle.cov_model.specs.believed.Sound.{IsSoundValue, param_at};
ghost use Rattle.cov_model.specs.believed.Meaning.{value_at};
ghost use Rattle.definitions.specs.believed.Report.{printed};
ghost use Rattle.row_forms.specs.believed.Tables.{is_single};
ghost use Rattle.suite_forms.specs.Pieces.{ArePiecesOf, cell_piece, name_pieces, value_pieces};
ghost use Rattle.suite_forms.specs.believed.Suites.{param_names};

use crate::piece::{NamePieces, Piece, ValuePieces};
use cov_model::{TestModel, Value};
use row_forms::{Column, RowForm};
use std::alloc::Global;
use value_text::{NoMemory, OwnedList};

/// What stands in the rows of a suite for each cell that they can have.
#[derive(Drop)]
pub(crate) struct CellPieces {
    /// The form of the suite.
    pub form: RowForm,
    /// For each parameter, what stands for a cell without a value.
    pub absent: OwnedList<Piece>,
    /// For each parameter, what stands for each name of each of its values.
    pub given: OwnedList<ValuePieces>,
}

/// The column of a parameter.
fn column_of(model: &TestModel, place: usize) -> Column<'_>
    requires { place < length model.now.params }
    ensures name { result.name.now ≡ (param_at model.now.params place).name }
    ensures first { result.is_first ≡ (place == 0) }
    ensures only { result.is_only ≡ is_single (param_names model.now) }
{
    let params = model.params().as_slice();
    Column {
        name: params[place].name.as_str(),
        is_first: place == 0,
        is_only: params.len() == 1,
    }
}

/// A name of a value as it is printed: with the mark before it if the value is negative.
fn printed_name(
    alloc: Global,
    model: &TestModel,
    value: &Value,
    name: &str,
) -> Result<String, NoMemory>
    ensures { IfOk result (λ text. string_bytes text ≡ printed model.now value.now name.now) }
{
    let mut text = String::new(alloc);
    if value.negative {
        text.push(char::from(model.prefix()))?;
    }
    text.push_str(name)?;
    Ok(text)
}

/// What stands for each name of a value of a parameter.
fn name_pieces(
    alloc: Global,
    form: RowForm,
    model: &TestModel,
    place: usize,
    value: &Value,
) -> Result<NamePieces, NoMemory>
    requires { place < length model.now.params }
    ensures { IfOk result (λ pieces. pieces ≡ name_pieces form model.now place value.now) }
{
    let column = column_of(model, place);
    let mut pieces = OwnedList::new(alloc);
    for name in value.names.as_slice() {
        let text = printed_name(alloc, model, value, name.as_str())?;
        pieces.push(Piece::new(alloc, form, column, Some(text.as_str()))?)?;
    }
    Ok(pieces)
}

/// What stands for each name of each value of a parameter.
fn value_pieces(
    alloc: Global,
    form: RowForm,
    model: &TestModel,
    place: usize,
) -> Result<ValuePieces, NoMemory>
    requires { place < length model.now.params }
    ensures { IfOk result (λ pieces. pieces ≡ value_pieces form model.now place) }
{
    let mut pieces = OwnedList::new(alloc);
    for value in model.params().as_slice()[place].values.as_slice() {
        pieces.push(name_pieces(alloc, form, model, place, value)?)?;
    }
    Ok(pieces)
}

impl CellPieces {
    /// The pieces of the parameters of a model.
    ///
    /// # Errors
    ///
    /// `NoMemory` where memory was refused.
    pub(crate) fn new(
        alloc: Global,
        form: RowForm,
        model: &TestModel,
    ) -> Result<CellPieces, NoMemory>
        ensures form { IfOk result (λ pieces. pieces.form ≡ form) }
        ensures pieces { IfOk result (λ pieces. ArePiecesOf model.now pieces) }
    {
        let mut absent = OwnedList::new(alloc);
        let mut given = OwnedList::new(alloc);
        for place in 0..model.params().len() {
            absent.push(Piece::new(alloc, form, column_of(model, place), None)?)?;
            given.push(value_pieces(alloc, form, model, place)?)?;
        }
        Ok(CellPieces {
            form,
            absent,
            given,
        })
    }

    /// What stands for a cell of a parameter without a value.
    pub(crate) fn absent(&self, model: &TestModel, place: usize) -> &[u8]
        requires pieces { ArePiecesOf model.now self.now }
        requires place { place < length model.now.params }
        ensures { result.now ≡ cell_piece self.now.form model.now place None }
    {
        model.assert_invariant();
        self.absent.as_slice()[place].as_slice()
    }

    /// What stands for each name of a value of a parameter.
    pub(crate) fn names(&self, model: &TestModel, place: usize, value: usize) -> &[Piece]
        requires pieces { ArePiecesOf model.now self.now }
        requires place { place < length model.now.params }
        requires value { value < length (param_at model.now.params place).values }
        ensures names { result.now ≡ name_pieces self.now.form model.now place (value_at model.now place value) }
        ensures sound { IsSoundValue model.now.prefix (value_at model.now place value) }
    {
        model.assert_invariant();
        self.given.as_slice()[place].as_slice()[value].as_slice()
    }
}

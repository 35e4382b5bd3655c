//! Row files of a model, made of the values of their rows.

ghost use Rattle.std.specs.Prelude.{◌≡◌, ◌<◌, ◌≤◌, ◌^◌, All, IfOk, IfSome, IsTrue, length};
ghost use Rattle.cov_model.specs.Fits.{FitsModel};
ghost use Rattle.cov_model.specs.believed.Sound.{param_at};

use cov_model::{Cells, ParamNo, TestModel, ValueNo};
use model_lex::NoteList;
use row_text::{FileRow, FileRowList, RowFile};
use std::alloc::Global;
use value_text::NoMemory;

/// The values that a row gives the parameters in order.
pub(crate) type RowValues<'a> = &'a [Option<ValueNo>];

// The partial row of these values.
fn cells_of(alloc: Global, values: RowValues) -> Result<Cells, NoMemory>
    requires { length values.now < 2 ^ 16 }
{
    let mut cells = Cells::empty(alloc, values.len())?;
    for p in 0..values.len() {
        if let Some(v) = values[p] {
            cells.set_cell(p as ParamNo, v);
        }
    }
    Ok(cells)
}

// Whether the cell has no value, or one of the parameter.
fn is_cell(model: &TestModel, p: ParamNo, cell: Option<ValueNo>) -> bool
    requires { p < length model.now.params }
    ensures { IsTrue result → IfSome cell (λ v. v < length (param_at model.now.params p).values) }
{
    match cell {
        Some(v) => v < model.value_count(p),
        None => true,
    }
}

// Whether the partial row has a place for each parameter, and values that exist.
fn is_of_model(model: &TestModel, cells: &Cells) -> bool
    ensures { IsTrue result → FitsModel model.now cells.now }
{
    let count = model.params().len();
    if cells.len() != count {
        return false;
    }
    for p in 0..count as ParamNo {
        if !is_cell(model, p, cells.get(p)) {
            return false;
        }
    }
    true
}

// The same where it is of the model; nothing where it isn't, or memory was refused.
fn row_of(alloc: Global, model: &TestModel, values: RowValues) -> Option<Cells>
    ensures { IfSome result (λ cells. FitsModel model.now cells) }
{
    if values.len() > 256 {
        return None;
    }
    let Ok(cells) = cells_of(alloc, values) else {
        return None;
    };
    if is_of_model(model, &cells) {
        Some(cells)
    } else {
        None
    }
}

// The list of these rows, from line 2 on.
fn list_of(alloc: Global, model: &TestModel, rows: &[RowValues]) -> Option<FileRowList>
    requires { length rows.now < 2 ^ 12 }
    ensures { IfSome result (λ list. All (λ row. FitsModel model.now row.cells) list × (length list ≡ length rows.now)) }
{
    let mut list = FileRowList::new(alloc);
    for (i, values) in rows.iter().enumerate() {
        let Some(cells) = row_of(alloc, model, values) else {
            return None;
        };
        let line = i as u32 + 2;
        if list.push(FileRow { line, cells }).is_err() {
            return None;
        }
    }
    Some(list)
}

/// The file of these rows. `None` where there are 2^12 or more, one of them isn't of the model, or memory was refused.
pub(crate) fn file_of(alloc: Global, model: &TestModel, rows: &[RowValues]) -> Option<RowFile>
    ensures { IfSome result (λ file. All (λ row. FitsModel model.now row.cells) file.rows × (length file.rows ≤ 2 ^ 12)) }
{
    if rows.len() >= 1 << 12 {
        return None;
    }
    match list_of(alloc, model, rows) {
        Some(rows) => Some(RowFile {
            rows,
            notes: NoteList::new(alloc),
        }),
        None => None,
    }
}

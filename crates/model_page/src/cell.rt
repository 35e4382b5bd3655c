//! A cell of the table of tests.
ghost use Rattle.std.specs.Prelude.{◌≡◌, ◌<◌, ◌++◌, ◌==◌, ◌&&◌, ◌%◌, [], None, IfOk, OnOk, count_by, length, slice_index_or, take};
ghost use Rattle.std.specs.String.{string_bytes};
ghost use Rattle.cov_model.specs.believed.Meaning.{value_at};
ghost use Rattle.cov_model.specs.believed.Rows.{is_assigned, value_in};
ghost use Rattle.definitions.specs.believed.Report.{printed, printed_turn};
ghost use Rattle.html_page.specs.Trees.{content_text};
ghost use Rattle.model_page.specs.believed.Tests.{cell_of};
ghost use Rattle.row_text.specs.RowFiles.{suite_seen};
ghost use Rattle.suite_page.specs.believed.TestsTable.{cell_tree, no_cell};

use cov_model::{Cells, TestModel, Value, ValueNo};
use html_page::PageText;
use row_text::{FileRow, RowFile};
use std::alloc::Global;
use suite_page::{Cell, put_cell};
use value_text::NoMemory;

// The value that a row gives a parameter; none where it gives it none.
fn value_given(cells: &Cells, place: usize) -> Option<ValueNo>
    ensures { result ≡ slice_index_or cells.now place None }
{
    match cells.as_slice().get(place) {
        Some(cell) => *cell,
        None => None,
    }
}

// Whether a row gives a parameter a value.
fn gives(cells: &Cells, place: usize, value: ValueNo) -> bool
    ensures { result ≡ (is_assigned cells.now place && (value_in cells.now place == value)) }
{
    match value_given(cells, place) {
        Some(given) => given == value,
        None => false,
    }
}

// How many of some rows give a parameter a value.
fn times_given(rows: &[FileRow], place: usize, value: ValueNo) -> usize
    ensures { result ≡ count_by (λ row. is_assigned row.cells place && (value_in row.cells place == value)) rows.now }
{
    let mut times = 0;
    for row in rows {
        if gives(&row.cells, place, value) {
            times += 1;
        }
    }
    times
}

// A name of a value as it is printed: with the mark of an invalid one before it.
fn printed_name(
    alloc: Global,
    model: &TestModel,
    value: &Value,
    name: &str,
) -> Result<String, NoMemory>
    ensures { IfOk result (λ text. string_bytes text ≡ printed model.now value.now name.now) }
{
    let mut text = String::new(alloc);
    if value.negative {
        text.push(char::from(model.prefix()))?;
    }
    text.push_str(name)?;
    Ok(text)
}

// The name of a value that is shown after it was shown so many times.
fn name_shown(value: &Value, times: usize) -> &str
    ensures { result.now ≡ slice_index_or value.now.names (times % length value.now.names) [] }
{
    let names = value.names.as_slice();
    if names.is_empty() {
        return "";
    }
    names[times % names.len()].as_str()
}

// Adds a cell without a value.
fn put_no_cell(page: &mut PageText) -> Result<(), NoMemory>
    ensures { OnOk result (page.new ≡ page.old ++ content_text (cell_tree no_cell)) }
{
    put_cell(
        page,
        &Cell {
            text: "",
            is_invalid: false,
        },
    )
}

// Adds the cell of a value that was shown so many times.
fn put_shown(
    alloc: Global,
    page: &mut PageText,
    model: &TestModel,
    value: &Value,
    times: usize,
) -> Result<(), NoMemory>
    ensures { OnOk result (page.new ≡ page.old
        ++ content_text (cell_tree (record { text = printed_turn model.now value.now times; is_invalid = value.now.negative }))) }
{
    let text = printed_name(alloc, model, value, name_shown(value, times))?;
    let cell = Cell {
        text: text.as_str(),
        is_invalid: value.negative,
    };
    put_cell(page, &cell)
}

// Adds the cell of a value of a parameter that was shown so many times; an empty one where there is no such value.
fn put_value(
    alloc: Global,
    page: &mut PageText,
    model: &TestModel,
    place: usize,
    value: ValueNo,
    times: usize,
) -> Result<(), NoMemory>
    ensures { OnOk result (page.new ≡ page.old
        ++ content_text (cell_tree (record { text = printed_turn model.now (value_at model.now place value) times; is_invalid = (value_at model.now place value).negative }))) }
{
    let Some(param) = model.params().as_slice().get(place) else {
        return put_no_cell(page);
    };
    match param.values.as_slice().get(value as usize) {
        Some(value) => put_shown(alloc, page, model, value, times),
        None => put_no_cell(page),
    }
}

/// Adds the cell of a parameter in the row at a place.
///
/// # Errors
///
/// `NoMemory` where memory was refused.
pub(crate) fn put_cell_of(
    alloc: Global,
    page: &mut PageText,
    model: &TestModel,
    file: &RowFile,
    at: usize,
    place: usize,
) -> Result<(), NoMemory>
    requires { at < length file.now.rows }
    ensures { OnOk result (page.new ≡ page.old
        ++ content_text (cell_tree (cell_of model.now (take at (suite_seen file.now)) (slice_index_or (suite_seen file.now) at []) place))) }
{
    let rows = file.rows.as_slice();
    match value_given(&rows[at].cells, place) {
        Some(value) => {
            let times = times_given(&rows[..at], place, value);
            put_value(alloc, page, model, place, value, times)
        }
        None => put_no_cell(page),
    }
}

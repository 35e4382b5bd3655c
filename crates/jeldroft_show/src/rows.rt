ghost use Rattle.std.specs.Prelude.{◌≡◌, ◌++◌, ◌∷◌, [], All, IfOk, OnOk};
ghost use Rattle.cov_model.specs.Fits.{FitsModel};
ghost use Rattle.jeldroft_show.specs.believed.Due.{form_of, is_page};
ghost use Rattle.row_text.specs.RowFiles.{suite_seen};
ghost use Rattle.suite_forms.specs.believed.Suites.{suite_text};

use cov_model::{Rows, TestModel};
use jeldroft_args::Format;
use row_forms::RowForm;
use row_text::{FileRow, RowFile};
use std::alloc::Global;
use suite_forms::suite_text;
use value_text::NoMemory;

/// The form of a table; words and pages are none.
pub(crate) fn form_of(format: Format) -> Option<RowForm>
    ensures { result ≡ form_of format }
{
    match format {
        Format::Tsv => Some(RowForm::Tsv),
        Format::Csv => Some(RowForm::Csv),
        Format::Json => Some(RowForm::Json),
        Format::Markdown => Some(RowForm::Markdown),
        Format::Text | Format::Html => None,
    }
}

/// Whether a page is asked for.
pub(crate) fn is_page(format: Format) -> bool
    ensures { result ≡ is_page format }
{
    match format {
        Format::Html => true,
        Format::Tsv | Format::Csv | Format::Json | Format::Markdown | Format::Text => false,
    }
}

// Adds a row.
fn add_row(model: &TestModel, row: &FileRow, rows: &mut Rows) -> Result<(), NoMemory>
    requires row { FitsModel model.now row.now.cells }
    requires rows { All (FitsModel model.now) rows.old }
    ensures { OnOk result (rows.new ≡ rows.old ++ row.now.cells ∷ []) }
{
    let _ = model;
    rows.push(row.cells.as_slice())?;
    Ok(())
}

// The rows of a file, one behind another.
fn rows_of(alloc: Global, model: &TestModel, tests: &RowFile) -> Result<Rows, NoMemory>
    requires { All (λ row. FitsModel model.now row.cells) tests.now.rows }
    ensures { IfOk result (λ rows. rows ≡ suite_seen tests.now) }
{
    let mut rows = Rows::new(alloc);
    for row in tests.rows.as_slice() {
        add_row(model, row, &mut rows)?;
    }
    Ok(rows)
}

/// The rows of a file in a form.
///
/// # Errors
///
/// `NoMemory` where memory was refused.
pub(crate) fn rows_text(
    alloc: Global,
    form: RowForm,
    model: &TestModel,
    tests: &RowFile,
) -> Result<Vec<u8>, NoMemory>
    requires { All (λ row. FitsModel model.now row.cells) tests.now.rows }
    ensures { IfOk result (λ text. text.items ≡ suite_text form model.now (suite_seen tests.now)) }
{
    let rows = rows_of(alloc, model, tests)?;
    suite_text(alloc, form, model, &rows)
}

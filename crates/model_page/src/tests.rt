//! The table of tests.
ghost use Rattle.std.specs.Prelude.{◌≡◌, ◌≤◌, ◌<◌, ◌++◌, [], IfOk, OnOk, length, map, slice_index_or, take};
ghost use Rattle.std.specs.List.{flat_map, range_with_len};
ghost use Rattle.cov_model.specs.believed.Valid.{param_numbers};
ghost use Rattle.html_page.specs.Trees.{content_text};
ghost use Rattle.model_page.specs.Parts.{tests_part};
ghost use Rattle.model_page.specs.believed.Pages.{most_shown};
ghost use Rattle.model_page.specs.believed.Tests.{cell_of, param_names, test_of};
ghost use Rattle.row_text.specs.RowFiles.{suite_seen};
ghost use Rattle.suite_page.specs.believed.TestsTable.{cell_tree, test_tree};

use crate::cell::put_cell_of;
use cov_model::TestModel;
use html_page::PageText;
use row_text::RowFile;
use std::alloc::Global;
use suite_page::{put_test_closing, put_test_opening, put_tests_closing, put_tests_opening};
use value_text::NoMemory;

/// How many tests, and how many combinations that are left out, are shown at most.
pub(crate) const MOST_SHOWN: usize = 1_000;

// The names of the parameters.
fn param_names(alloc: Global, model: &TestModel) -> Result<Vec<&str>, NoMemory>
    ensures { IfOk result (λ names. map (λ name. name.now) names.items ≡ param_names model.now) }
{
    let mut names = Vec::new(alloc);
    for param in model.params().as_slice() {
        names.push(param.name.as_str())?;
    }
    Ok(names)
}

// Adds the cells of the row at a place.
fn put_cells(
    alloc: Global,
    page: &mut PageText,
    model: &TestModel,
    file: &RowFile,
    at: usize,
) -> Result<(), NoMemory>
    requires { at < length file.now.rows }
    ensures { OnOk result (page.new ≡ page.old
        ++ flat_map (λ p. content_text (cell_tree (cell_of model.now (take at (suite_seen file.now)) (slice_index_or (suite_seen file.now) at []) p))) (param_numbers model.now)) }
{
    for place in 0..model.params().len() {
        put_cell_of(alloc, page, model, file, at, place)?;
    }
    Ok(())
}

// Adds the row at a place.
fn put_test(
    alloc: Global,
    page: &mut PageText,
    model: &TestModel,
    file: &RowFile,
    at: usize,
) -> Result<(), NoMemory>
    requires exists { at < length file.now.rows }
    requires few { at < most_shown }
    ensures { OnOk result (page.new ≡ page.old ++ content_text (test_tree (test_of model.now (suite_seen file.now) at))) }
{
    put_test_opening(page, at as u64 + 1)?;
    put_cells(alloc, page, model, file, at)?;
    put_test_closing(page)?;
    Ok(())
}

// Adds the first rows, so many.
fn put_rows(
    alloc: Global,
    page: &mut PageText,
    model: &TestModel,
    file: &RowFile,
    count: usize,
) -> Result<(), NoMemory>
    requires exist { count ≤ length file.now.rows }
    requires few { count ≤ most_shown }
    ensures { OnOk result (page.new ≡ page.old
        ++ flat_map (λ at. content_text (test_tree (test_of model.now (suite_seen file.now) at))) (range_with_len 0 count)) }
{
    for at in 0..count {
        put_test(alloc, page, model, file, at)?;
    }
    Ok(())
}

/// Adds the section of the tests: the first 1,000, and how many follow.
///
/// # Errors
///
/// `NoMemory` where memory was refused.
pub(crate) fn put_tests(
    alloc: Global,
    page: &mut PageText,
    model: &TestModel,
    file: &RowFile,
) -> Result<(), NoMemory>
    ensures { OnOk result (page.new ≡ page.old ++ content_text (tests_part model.now (suite_seen file.now))) }
{
    let names = param_names(alloc, model)?;
    let count = file.rows.len();
    put_tests_opening(page, names.as_slice())?;
    put_rows(alloc, page, model, file, count.min(MOST_SHOWN))?;
    put_tests_closing(page, count.saturating_sub(MOST_SHOWN) as u64)?;
    Ok(())
}
